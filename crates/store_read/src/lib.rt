// Reading the store's words.
// read: counts, marks and objects. finding: where a property stands, and what it is. naming: whether an object is named.
// own_key_order: 10.1.11.1, by way of sorted_words.
#![tactic(auto)]

ghost use Rattle.std.specs.Prelude.{◌≡◌, true};
ghost use Rattle.store.specs.Words.{is_store};

pub mod finding;
mod naming;
mod own_key_order;
mod read;
pub mod sorted_words;

pub use read::{is_store, key_from_word};

// How many words a store has, and where the released numbers, the objects, the key words and the properties begin.
pub const STORE_SIZE: usize = 1670;

pub const QUEUE: usize = 6;

pub const OBJECTS: usize = 38;

pub const KEYS: usize = 134;

pub const ROWS: usize = 390;

// The words of a store, to be read: of the right length, with counts and marks that a store can have.
#[derive(Clone, Copy)]
pub struct StoreWords<'a> {
    pub words: &'a [u64],
    pub ghost valid: { is_store words.now ≡ true },
}
