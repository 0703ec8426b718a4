// Writing a property into the store's words.
#![tactic(auto, using(crate::proofs::WriteLaws::properties))]

ghost use Rattle.std.specs.Prelude.{◌≡◌, true, ◌<◌, length};
ghost use Rattle.std.proofs.lemmas.List.Edits.{sets};
ghost use Rattle.store.specs.Store.{with_property, with_change};
ghost use Rattle.store.specs.Words.{store_size, word_at, row_at, key_word, store_of, is_store, with_row, with_new_row};
ghost use Rattle.store_write.specs.Write.{cells_of, PropertyCells, FitsProperty, Joins, New, Becomes};

use crate::{PropertyWords, write};
use property::Property;
use store_read::{KEYS, ROWS};
use value::PropertyKey;
use value_operations::{bits, encoding};

pub fn key_word(o: u64, k: PropertyKey) -> u64
    requires { Joins o k }
    ensures { result ≡ key_word o k }
{
    match k {
        PropertyKey::String(s) => o + 64 * s,
        PropertyKey::Symbol(s) => o + 32 + 64 * s,
    }
}

fn property_words(p: Property) -> PropertyWords
    ensures { PropertyCells p result }
{
    match p {
        Property::Data(v, w, e, c) => {
            let a = encoding::words_of(v);
            PropertyWords {
                flags: bits::weight(w, 2) + bits::weight(e, 4) + bits::weight(c, 8),
                kind: a.kind,
                payload: a.payload,
                second_kind: 0,
                second_payload: 0,
            }
        }
        Property::Accessor(g, s, e, c) => {
            let a = encoding::words_of(g);
            let b = encoding::words_of(s);
            PropertyWords {
                flags: 1 + bits::weight(e, 4) + bits::weight(c, 8),
                kind: a.kind,
                payload: a.payload,
                second_kind: b.kind,
                second_payload: b.payload,
            }
        }
    }
}

// The words of row i.
pub fn put_row(words: &mut [u64], i: usize, w: PropertyWords)
    requires { (length words.old ≡ store_size) × (i < 256) }
    ensures { words.new ≡ sets words.old (row_at i) (cells_of w) }
{
    let at = ROWS + 5 * i;
    write::put_three(words, at, w.flags, w.kind, w.payload);
    words[at + 3] = w.second_kind;
    words[at + 4] = w.second_payload;
}

fn write_row(words: &mut [u64], i: usize, p: Property)
    requires { (length words.old ≡ store_size) × (i < 256) }
    ensures { (words.new ≡ with_row words.old i p) × FitsProperty p }
{
    let w = property_words(p);
    put_row(words, i, w);
}

// The property of entry i is p.
pub fn set_property(words: &mut [u64], i: usize, p: Property)
    requires { (is_store words.old ≡ true) × (i < word_at words.old 1) }
    ensures { Becomes words.new (with_row words.old i p) (with_change (store_of words.old) i p) }
{
    write_row(words, i, p);
}

pub fn add_property(words: &mut [u64], o: u64, k: PropertyKey, p: Property)
    requires { (is_store words.old ≡ true) × New words.old o k }
    ensures { Becomes words.new (with_new_row words.old o k p) (with_property (store_of words.old) o k p) }
{
    let n = words[1];
    let last = n as usize;
    words[KEYS + last] = key_word(o, k);
    write_row(words, last, p);
    words[1] = n + 1;
}
