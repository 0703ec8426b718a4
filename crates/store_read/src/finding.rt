// Reading the store's words: where a property stands, and what it is.
#![tactic(auto, using(crate::proofs::ReadLaws::properties))]

ghost use Rattle.std.specs.Prelude.{◌≡◌, ◌==◌, ◌<◌, ◌≤◌, position};
ghost use Rattle.value.specs.PropertyKey.{key_number};
ghost use Rattle.store.specs.Store as store;
ghost use Rattle.store.specs.Words.{store_of, property_in};
ghost use Rattle.store_read.specs.Answers.{find_place, class_weight};

use crate::{ROWS, StoreWords};
use property::Property;
use value::PropertyKey;
use value_operations::encoding;

pub const NUMBERS: u64 = 1 << 58;

// Where the word stands first in the list.
pub fn find_word(list: &[u64], word: u64) -> Option<usize>
    ensures { result ≡ position (λ w. w == word) list.now }
{
    list.iter().position(|w| *w == word)
}

pub fn number_in(key: PropertyKey) -> u64
    ensures { result ≡ key_number key }
{
    match key {
        PropertyKey::String(s) => s,
        PropertyKey::Symbol(s) => s,
    }
}

// What tells a symbol's key word from a string's.
fn class_weight(key: PropertyKey) -> u64
    ensures { (result ≡ class_weight key) × (result ≤ 32) }
{
    match key {
        PropertyKey::String(_) => 0,
        PropertyKey::Symbol(_) => 32,
    }
}

impl StoreWords<'_> {
    // No key word holds an object from 32 on, or a number from 2^58 on. A call, since compiled into `own` its loop counts the place of the row too.
    #[inline(never)]
    pub fn find(self, o: u64, key: PropertyKey) -> Option<usize>
        ensures { result ≡ find_place (store_of self.entry.words.now).properties o key }
    {
        let list = self.key_words();
        let number = number_in(key);
        if o < 32 && number < NUMBERS {
            let word = o + class_weight(key) + 64 * number;
            if let Some(i) = find_word(list, word) {
                return Some(i);
            }
        }
        None
    }

    #[tactic(auto, using(crate::proofs::ReadLaws::properties), unfolding(store::specs::Words::property_in, store::specs::Words::property_of))]
    fn property_at(self, i: usize) -> Property
        requires { i < 256 }
        ensures { result ≡ property_in self.entry.words.now i }
    {
        let at = ROWS + 5 * i;
        let flags = self.words[at];
        let a = encoding::value_of(self.words[at + 1], self.words[at + 2]);
        if flags % 2 == 1 {
            let b = encoding::value_of(self.words[at + 3], self.words[at + 4]);
            return Property::Accessor(a, b, flags / 4 % 2 == 1, flags / 8 % 2 == 1);
        }
        Property::Data(
            a,
            flags / 2 % 2 == 1,
            flags / 4 % 2 == 1,
            flags / 8 % 2 == 1,
        )
    }

    pub fn own(self, o: u64, key: PropertyKey) -> Option<Property>
        ensures { result ≡ store.own (store_of self.entry.words.now) o key }
    {
        match self.find(o, key) {
            Some(i) => Some(self.property_at(i)),
            None => None,
        }
    }
}
