// 7.3.15 SetIntegrityLevel ( O, level ).
#![tactic(auto, using(crate::proofs::SequenceSteps::steps, crate::proofs::SequenceSteps::committed, crate::proofs::KeySteps::each_next, crate::proofs::KeySteps::each_end), unfolding(steps::specs::SetIntegrityLevel::set_integrity_level))]

ghost use Rattle.std.specs.Prelude.{◌≡◌, true, map};
ghost use Rattle.store.specs.Words.{is_store, store_of};
ghost use Rattle.store_read.specs.Answers.{key_from_word};
ghost use Rattle.store_write.specs.Write.{Committed};
ghost use Rattle.sheet.specs.Next.{answers_from};
ghost use Rattle.calls.specs.Outs.{out, state_of};
ghost use Rattle.own_keys.specs.Lists.{are_lists_fit};
ghost use Rattle.steps.specs.Sequence.{for_each};
ghost use Rattle.steps.specs.SetIntegrityLevel.{turn, set_integrity_level};
ghost use Rattle.integrity.specs.Levels.{integrity_level};
ghost use Rattle.integrity.specs.Over.{methods_over};
ghost use Rattle.integrity.specs.Definable.{AreDefinable};

use crate::{Inputs, IntegrityLevel, turns};
use calls::Progress;
use extensibility::prevention;
use internal_methods::Failure;
use own_keys::loading;
use store_read::StoreWords;

// 7.3.15 steps 4 and 5: each key has its turn, until one fails.
fn for_each_key(
    words: &mut [u64],
    inputs: &Inputs<'_>,
    o: u64,
    level: IntegrityLevel,
    keys: &[u64],
    depth: usize,
    progress: &mut Progress,
) -> Result<(), Failure>
    requires store { is_store words.old ≡ true }
    requires definable { AreDefinable keys.now }
    ensures words_after { (out inputs.now.sheet.now result progress.new, store_of words.new) ≡ (for_each (turn (methods_over depth inputs.now) o (integrity_level level)) (map key_from_word keys.now)).run (store_of words.old) (state_of inputs.now.sheet.now progress.old) }
    ensures committed { Committed words.old words.new }
{
    for &word in keys {
        let key = store_read::key_from_word(word);
        turns::turn(words, inputs, o, level, key, depth, progress)?;
    }
    Ok(())
}

// 7.3.15 SetIntegrityLevel ( O, level )
pub fn set_integrity_level(
    words: &mut [u64],
    inputs: &Inputs<'_>,
    o: u64,
    level: IntegrityLevel,
    depth: usize,
    progress: &mut Progress,
) -> Result<bool, Failure>
    requires store { is_store words.old ≡ true }
    requires fit { are_lists_fit (answers_from inputs.now.sheet.now progress.old.at progress.old.left) ≡ true }
    ensures words_after { (out inputs.now.sheet.now result progress.new, store_of words.new) ≡ (set_integrity_level (methods_over depth inputs.now) o (integrity_level level)).run (store_of words.old) (state_of inputs.now.sheet.now progress.old) }
    ensures committed { Committed words.old words.new }
{
    let run = inputs.over(StoreWords { words });
    let prevented = prevention::prevent_extensions(&run, o, depth, progress)?; // 1
    store_write::commit(words, prevented.write);
    if !prevented.accepted {
        return Ok(false); // 2
    }
    let run = inputs.over(StoreWords { words });
    let list = own_keys::own_property_keys(&run, o, depth, progress)?; // 3
    let mut keys = [0u64; 256];
    let count = loading::load_list(&run, list, &mut keys);
    for_each_key(words, inputs, o, level, &keys[..count], depth, progress)?; // 4, 5
    Ok(true) // 6
}
