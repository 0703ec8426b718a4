// The words of an answered list, checked off one by one: ECMA-262 10.5.11 steps 19, 21 and 22.
ghost use Rattle.std.specs.Prelude.{◌≡◌, not, ◌∷◌, []};
ghost use Rattle.store_read.specs.Answers.{key_from_word};
ghost use Rattle.internal_methods.specs.KeyList.{is_empty, checked_off};
ghost use Rattle.key_lists.specs.Unchecked.{unchecked, unless_missing};

use store_read::finding;

// Stands for a key that was checked off.
const CHECKED: u64 = u64::MAX;

// Checks off one key; false if it is missing.
pub fn check_off(list: &mut [u64], word: u64) -> bool
    ensures { unless_missing result (unchecked list.new) ≡ checked_off (key_from_word word ∷ []) (unchecked list.old) }
{
    if word == CHECKED {
        return false;
    }
    match finding::find_word(list, word) {
        Some(i) => {
            list[i] = CHECKED;
            true
        }
        None => false,
    }
}

// Step 22: whether a key was not checked off.
pub fn any_left(list: &[u64]) -> bool
    ensures { result ≡ not (is_empty (unchecked list.now)) }
{
    list.iter().any(|word| *word != CHECKED)
}
