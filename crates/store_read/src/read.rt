// Reading the store's words: its counts, marks, next number and objects, and the key that a word stands for.
#![tactic(auto, using(crate::proofs::ReadLaws::counts))]

ghost use Rattle.std.specs.Prelude.{◌≡◌, false, ◌<◌, ◌≤◌, ltb, length, MatchOption};
ghost use Rattle.store.specs.Store as store;
ghost use Rattle.store.specs.Words.{is_store, store_of, object_of, next_in};
ghost use Rattle.store_read.specs.Answers.{is_ordinary, key_from_word, key_words};

use crate::{KEYS, OBJECTS, QUEUE, STORE_SIZE, StoreWords};
use store::{Object, OrdinaryObject, ProxyObject};
use value::PropertyKey;
use value_operations::{bits, encoding};

// Whether the words have the right length, and counts and marks that a store can have.
#[tactic(auto, unfolding(store::specs::Words::is_store))]
pub fn is_store(words: &[u64]) -> bool
    ensures { result ≡ is_store words.now }
{
    words.len() == STORE_SIZE
        && words[0] <= 32
        && words[1] <= 256
        && words[3] < 1 << 32
        && words[4] <= 32
}

impl<'a> StoreWords<'a> {
    // Of words that are a store's.
    pub fn new(words: &'a [u64]) -> Option<StoreWords<'a>>
        ensures { MatchOption result (is_store words.now ≡ false) (λ s. s.words.now ≡ words.now) }
    {
        if is_store(words) {
            return Some(StoreWords { words });
        }
        None
    }

    pub fn property_count(self) -> usize
        ensures { (result ≡ length (store_of self.entry.words.now).properties) × (result ≤ store.maximum_properties) }
    {
        self.words[1] as usize
    }

    // The key words in use, one for each property.
    pub fn key_words(self) -> &'a [u64]
        ensures { result.now ≡ key_words self.entry.words.now }
    {
        &self.words[KEYS..KEYS + self.property_count()]
    }

    // The marks of the live objects: bit o for object o.
    pub fn live(self) -> u64
        ensures { result ≡ store.live_marks (store_of self.entry.words.now).objects }
    {
        self.words[3]
    }

    // The marks of the callable objects: bit o for object o.
    #[tactic(auto, using(crate::proofs::ReadLaws::counts), unfolding(store::specs::Words::store_of))]
    pub fn callable(self) -> u64
        ensures { result ≡ (store_of self.entry.words.now).callable }
    {
        self.words[2]
    }

    // Whether one more object may be live.
    pub fn has_object_room(self) -> bool
        ensures { result ≡ ltb (store.live_count (store_of self.entry.words.now)) store.maximum_objects }
    {
        self.words[0] < 32 + self.words[4]
    }

    // The number that the next object takes: the one released longest ago or, with none released, the next unused one.
    pub fn next_number(self) -> u64
        ensures { (result ≡ next_in self.entry.words.now) × (result ≡ store.next_number (store_of self.entry.words.now)) }
    {
        if self.words[4] == 0 {
            return self.words[0];
        }
        let first = (self.words[5] % 32) as usize;
        self.words[QUEUE + first] % 32
    }
}

#[tactic(auto, using(crate::proofs::ReadLaws::objects))]
fn object_of(head: u64, a: u64, b: u64) -> Object
    ensures { result ≡ object_of head a b }
{
    if head < 2 {
        return Object::Ordinary(OrdinaryObject {
            prototype: encoding::value_of(a, b),
            extensible: head == 1,
        });
    }
    Object::Proxy(ProxyObject {
        target: a,
        traps: b,
        revoked: head != 2,
    })
}

impl StoreWords<'_> {
    #[tactic(auto, using(crate::proofs::ReadLaws::objects), unfolding(store::specs::Words::object_in))]
    pub fn object_at(self, o: u64) -> Option<Object>
        ensures { result ≡ (store.lookup (store_of self.entry.words.now) o) }
    {
        if o < 32 && bits::bit(self.words[3], o) {
            let at = OBJECTS + 3 * o as usize;
            return Some(object_of(self.words[at], self.words[at + 1], self.words[at + 2]));
        }
        None
    }

    // Whether it is a live ordinary object. A proxy is told by its head, and its mark is not read.
    #[tactic(auto, using(crate::proofs::ReadLaws::objects))]
    pub fn is_ordinary_at(self, o: u64) -> bool
        ensures { result ≡ is_ordinary (store.lookup (store_of self.entry.words.now) o) }
    {
        o < 32 && self.words[OBJECTS + 3 * o as usize] < 2 && bits::bit(self.words[3], o)
    }
}

#[tactic(auto, unfolding(crate::specs::Answers::key_from_word))]
pub fn key_from_word(word: u64) -> PropertyKey
    ensures { result ≡ key_from_word word }
{
    if word % 2 == 0 {
        PropertyKey::String(word / 2)
    } else {
        PropertyKey::Symbol(word / 2)
    }
}
