// ECMA-262 10.5.11 step 9 over a list of keys, each key in one word.
ghost use Rattle.std.specs.Prelude.{◌≡◌, [], map};
ghost use Rattle.store_read.specs.Answers.{key_from_word};
ghost use Rattle.internal_methods.specs.KeyList.{duplicate};

// The message of the first key that stands among those before it.
#[tactic(auto, using(crate::proofs::KeyWordLaws::duplicates))]
pub fn duplicate_message(list: &[u64]) -> Option<u64>
    ensures { result ≡ duplicate [] (map key_from_word list.now) }
{
    for (i, word) in list.iter().enumerate() {
        if list[..i].contains(word) {
            return Some(22 + *word % 2);
        }
    }
    None
}
