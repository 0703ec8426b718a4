// What a write to the store's words is, and writing objects. Each changes the words that its definition names, and no other.
#![tactic(auto, using(crate::proofs::WriteLaws::objects))]

ghost use Rattle.std.specs.Prelude.{◌≡◌, true, ◌∷◌, [], ◌+◌, ◌<◌, ◌≤◌, eqb, ltb, length};
ghost use Rattle.std.proofs.lemmas.List.Edits.{sets};
ghost use Rattle.value.specs.Bits.{bit};
ghost use Rattle.store.specs.Store.{empty, put, live_count, add};
ghost use Rattle.store.specs.Words.{store_size, word_at, store_of, is_store, with_object, with_live_object, with_new_object};
ghost use Rattle.store_write.specs.Write.{ObjectCells, FitsObject, Becomes, emptied};

use crate::numbers;
use property::Property;
use store::Object;
use store_read::{OBJECTS, QUEUE, STORE_SIZE, StoreWords};
use value::PropertyKey;
use value_operations::{bits, encoding};

// One change of the store. An object and an entry are given by their numbers; a new object is callable or not.
#[derive(Clone, Copy)]
pub enum Write {
    Nothing,
    Object(u64, Object),
    NewObject(Object, bool),
    Change(usize, Property),
    Add(u64, PropertyKey, Property),
    Remove(u64, PropertyKey),
    Release(u64),
}

// The words of an object.
#[derive(Clone, Copy)]
struct ObjectWords {
    head: u64,
    first: u64,
    second: u64,
}

// The words of a property.
#[derive(Clone, Copy)]
pub struct PropertyWords {
    pub flags: u64,
    pub kind: u64,
    pub payload: u64,
    pub second_kind: u64,
    pub second_payload: u64,
}

fn object_words(x: Object) -> ObjectWords
    ensures { ObjectCells x result }
{
    match x {
        Object::Ordinary(r) => {
            let v = r.prototype;
            let w = encoding::words_of(v);
            ObjectWords {
                head: bits::weight(r.extensible, 1),
                first: w.kind,
                second: w.payload,
            }
        }
        Object::Proxy(p) => ObjectWords {
            head: 2 + bits::weight(p.revoked, 1),
            first: p.target,
            second: p.traps,
        },
    }
}

// The three words from `at` on.
pub fn put_three(words: &mut [u64], at: usize, a: u64, b: u64, c: u64)
    requires { at + 3 ≤ length words.old }
    ensures { words.new ≡ sets words.old at (a ∷ b ∷ c ∷ []) }
{
    words[at] = a;
    words[at + 1] = b;
    words[at + 2] = c;
}

fn write_object(words: &mut [u64], o: usize, x: Object)
    requires { (length words.old ≡ store_size) × (o < 32) }
    ensures { (words.new ≡ with_object words.old o x) × FitsObject x }
{
    let w = object_words(x);
    put_three(words, OBJECTS + 3 * o, w.head, w.first, w.second);
}

// Words of the right length become an empty store; others are left.
pub fn make_empty(words: &mut [u64]) -> bool
    ensures value { result ≡ eqb (length words.old) store_size }
    ensures words_after { words.new ≡ emptied words.old }
    ensures words_after_2 { result ≡ true → (store_of words.new ≡ empty.store) × (is_store words.new ≡ true) }
{
    let fits = words.len() == STORE_SIZE;
    if fits {
        words[..QUEUE].fill(0);
    }
    fits
}

// Whether one more property may be added, where `limit` may be held.
pub fn room(store: StoreWords<'_>, limit: usize) -> bool
    ensures { result ≡ ltb (length (store_of store.entry.words.now).properties) limit }
{
    store.words[1] < limit as u64
}

pub fn set_object(words: &mut [u64], o: usize, x: Object)
    requires { (is_store words.old ≡ true) × (bit (word_at words.old 3) o ≡ true) }
    ensures { Becomes words.new (with_object words.old o x) (put (store_of words.old) o x) }
{
    write_object(words, o, x);
}

// Object o is now x, live, and callable or not.
fn write_live(words: &mut [u64], o: u64, x: Object, callable: bool)
    requires { (length words.old ≡ store_size) × (o < 32) }
    ensures { (words.new ≡ with_live_object words.old o x callable) × FitsObject x }
{
    write_object(words, o as usize, x);
    words[2] = bits::with_bit(words[2], o, callable);
    words[3] = bits::with_bit(words[3], o, true);
}

pub fn add_object(words: &mut [u64], x: Object, callable: bool)
    requires { (is_store words.old ≡ true) × (live_count (store_of words.old) < 32) }
    ensures { Becomes words.new (with_new_object words.old x callable) (add (store_of words.old) x callable) }
{
    let n = StoreWords { words }.next_number();
    write_live(words, n, x, callable);
    numbers::take_number(words);
}
