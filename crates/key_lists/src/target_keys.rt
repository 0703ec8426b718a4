// The target's keys with their marks as records, and the check of an answered list against a lent slice of them: ECMA-262 10.5.11 steps 17 to 22.
ghost use Rattle.std.specs.Prelude.{◌≡◌, map, ℕ, ◌<◌, ◌≤◌, length, take, get_or};
ghost use Rattle.store_read.specs.Answers.{key_from_word};
ghost use Rattle.internal_methods.specs.KeyList.{rejected};
ghost use Rattle.key_lists.specs.KeyWords.{sorted_from};
ghost use Rattle.key_lists.specs.Records.{sorted_keys, records_of};

use crate::checking;

// A key of the target, in one word, and whether it counts as configurable.
#[derive(Clone, Copy)]
pub struct TargetKey {
    pub key: u64,
    pub configurable: bool,
}

// The first are those of the words and marks: 1 if a key counts as configurable.
fn target_keys(keys: &[u64], marks: &[u64]) -> [TargetKey; 256]
    requires { (length keys.now ≡ length marks.now) × (length keys.now ≤ 256) }
    ensures { take (length keys.now) result ≡ records_of keys.now marks.now }
{
    let mut records = [TargetKey {
        key: 0,
        configurable: false,
    }; 256];
    for (i, key) in keys.iter().enumerate() {
        records[i] = TargetKey {
            key: *key,
            configurable: marks[i] == 1,
        };
    }
    records
}

// The message with which the list is rejected. The list's words are overwritten.
fn rejected_message(extensible: bool, target: &[TargetKey], list: &mut [u64]) -> Option<u64>
    requires { (i : ℕ) → i < length list.old → get_or list.old i 0 < 512 }
    ensures { result ≡ rejected extensible (sorted_keys target.now) (map key_from_word list.old) }
{
    for record in target {
        if !record.configurable && !checking::check_off(list, record.key) {
            return Some(24); // 19.a
        }
    }
    if extensible {
        return None; // 20
    }
    for record in target {
        if record.configurable && !checking::check_off(list, record.key) {
            return Some(25); // 21.a
        }
    }
    if checking::any_left(list) {
        return Some(26); // 22
    }
    None // 23
}

// The same, of the target's keys in words and their marks.
pub fn rejected_marked(
    extensible: bool,
    keys: &[u64],
    marks: &[u64],
    list: &mut [u64],
) -> Option<u64>
    requires { (length keys.now ≡ length marks.now) × ((length keys.now ≤ 256) × ((i : ℕ) → i < length list.old → get_or list.old i 0 < 512)) }
    ensures { result ≡ rejected extensible (sorted_from keys.now marks.now) (map key_from_word list.old) }
{
    let records = target_keys(keys, marks);
    rejected_message(extensible, &records[..keys.len()], list)
}
