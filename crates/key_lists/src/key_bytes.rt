// Keys between bytes, 9 to a key, and words, one to a key: string s is 2 s, and symbol s is 2 s + 1.
ghost use Rattle.std.specs.Prelude.{◌≡◌, true, ◌++◌, map, ℕ, ◌+◌, ◌*◌, ◌^◌, ◌<◌, ◌≤◌, length, get_or, take, drop};
ghost use Rattle.value.specs.PropertyKey.{key_of};
ghost use Rattle.internal_methods.specs.Answers.{keys_of};
ghost use Rattle.record.specs.Bytes.{value_at};
ghost use Rattle.record.specs.Step.{is_some};
ghost use Rattle.record.specs.Sheet.{values_at, values_pass};
ghost use Rattle.store_read.specs.Answers.{key_from_word, Listed};
ghost use Rattle.steps.specs.Step.{keys_bytes};
ghost use Rattle.key_lists.specs.Keys.{keys_held, is_bounded_key};

use byte_records::{numbers, value_record};
use value_operations::keys;

// Its kind alone says whether a value is a key.
#[tactic(auto, using(crate::proofs::KeyLaws::kinds))]
fn is_key_at(sheet: &[u8], at: usize) -> bool
    requires { at < length sheet.now }
    ensures { result ≡ is_some (key_of (value_at sheet.now at)) }
{
    matches!(sheet[at], 5 | 6)
}

// Whether n values are all keys.
pub fn are_keys(sheet: &[u8], first: usize, n: usize) -> bool
    requires { first + 9 * n ≤ length sheet.now }
    ensures { result ≡ is_some (keys_of (values_at sheet.now first n)) }
{
    (0..n).all(|i| is_key_at(sheet, first + 9 * i))
}

// The word of a key whose number is below 256.
fn key_word_at(sheet: &[u8], at: usize) -> u64
    requires { (at + 9 ≤ length sheet.now) × ((is_some (key_of (value_at sheet.now at)) ≡ true) × (is_bounded_key (value_at sheet.now at) ≡ true)) }
    ensures { (key_of (value_at sheet.now at) ≡ Some (key_from_word result)) × (result < 512) }
{
    let number = numbers::word_at(sheet, at + 1);
    if sheet[at] == 5 {
        2 * number
    } else {
        2 * number + 1
    }
}

// The words of n keys; those after them stay.
pub fn load_keys(sheet: &[u8], first: usize, n: usize, out: &mut [u64])
    requires { (first + 9 * n ≤ length sheet.now) × ((n ≤ length out.old) × ((is_some (keys_of (values_at sheet.now first n)) ≡ true) × (values_pass is_bounded_key (values_at sheet.now first n) ≡ true))) }
    ensures { Listed out.old out.new n (keys_held (keys_of (values_at sheet.now first n))) × ((i : ℕ) → i < n → get_or out.new i 0 < 512) }
{
    for (i, word) in out[..n].iter_mut().enumerate() {
        *word = key_word_at(sheet, first + 9 * i);
    }
}

// The bytes of the keys of the first n words; those after them stay. The words are of 64 bits, so the keys are read back.
pub fn write_keys(list: &[u64], n: usize, out: &mut [u8])
    requires { (n ≤ length list.now) × (9 * n ≤ length out.old) }
    ensures out_after { out.new ≡ keys_bytes (map key_from_word (take n list.now)) ++ drop (9 * n) out.old }
    ensures by_index { (i : ℕ) → get_or list.now i 0 < 2 ^ 64 }
{
    for (i, word) in list[..n].iter().enumerate() {
        let key = store_read::key_from_word(*word);
        value_record::put_value(out, 9 * i, keys::key_value(key));
    }
}
