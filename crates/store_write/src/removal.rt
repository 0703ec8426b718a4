// Removing a property from the store's words, and an object with its properties.
#![tactic(auto, using(store::proofs::WordLaws::sized))]

ghost use Rattle.std.specs.Prelude.{◌≡◌, Bool, true, ◌<◌, ◌≤◌, length};
ghost use Rattle.value.specs.Bits.{bit};
ghost use Rattle.store.specs.declared.Entry.{Entry};
ghost use Rattle.store.specs.Store.{without_property};
ghost use Rattle.store.specs.Release.{release};
ghost use Rattle.store.specs.Words.{store_size, word_at, store_of, is_store, moved, without_rows, without_row, without_object};
ghost use Rattle.store_write.specs.Write.{Joins, Becomes, StaysUnless};

use crate::write::PropertyWords;
use crate::{numbers, properties};
use store_read::{KEYS, ROWS};
use value::PropertyKey;
use value_operations::bits;

// Key word and property i go to j. (By `copy_within` a row costs 8 instructions more.)
fn move_entry(words: &mut [u64], i: usize, j: usize)
    requires { (length words.old ≡ store_size) × ((i < 256) × (j < 256)) }
    ensures { words.new ≡ moved words.old i j }
{
    let a = ROWS + 5 * i;
    let key = words[KEYS + i];
    let row = PropertyWords {
        flags: words[a],
        kind: words[a + 1],
        payload: words[a + 2],
        second_kind: words[a + 3],
        second_payload: words[a + 4],
    };
    words[KEYS + j] = key;
    properties::put_row(words, j, row);
}

// One pass: the properties whose key words pass go down over those that do not.
// (How many are kept so far is known only as they are met.)
fn retain_rows<F: Fn(u64) -> bool>(words: &mut [u64], stays: F)
    requires size { length words.old ≡ store_size }
    requires count { word_at words.old 1 ≤ 256 }
    requires callable { F.IsAlwaysCallable stays }
    ensures { (test : Entry → Bool) → StaysUnless test (F.post stays) → words.new ≡ without_rows test words.old }
{
    let mut kept = 0;
    for i in 0..words[1] as usize {
        if stays(words[KEYS + i]) {
            move_entry(words, i, kept);
            kept += 1;
        }
    }
    words[1] = kept as u64;
}

pub fn remove_property(words: &mut [u64], o: u64, k: PropertyKey)
    requires { (is_store words.old ≡ true) × Joins o k }
    ensures { Becomes words.new (without_row words.old o k) (without_property (store_of words.old) o k) }
{
    let key = properties::key_word(o, k);
    retain_rows(words, |word| word != key);
}

// The object is gone with its properties, and its number is free again.
pub fn release_object(words: &mut [u64], o: u64)
    requires { (is_store words.old ≡ true) × (bit (word_at words.old 3) o ≡ true) }
    ensures { Becomes words.new (without_object words.old o) (release (store_of words.old) o) }
{
    words[3] = bits::with_bit(words[3], o, false);
    retain_rows(words, |word| word % 32 != o);
    numbers::release_number(words, o);
}
