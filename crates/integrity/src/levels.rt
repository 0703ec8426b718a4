// 7.3.16 TestIntegrityLevel ( O, level ).
#![tactic(auto, using(calls::proofs::Steps::steps, crate::proofs::KeySteps::test_next, crate::proofs::KeySteps::test_end), unfolding(steps::specs::TestIntegrityLevel::test_integrity_level))]

ghost use Rattle.std.specs.Prelude.{◌≡◌, true, map};
ghost use Rattle.store_read.specs.Answers.{key_from_word};
ghost use Rattle.internal_methods.specs.Internal.{methods};
ghost use Rattle.sheet.specs.Next.{answers_from};
ghost use Rattle.calls.specs.Outs.{context_of, out, state_of};
ghost use Rattle.own_keys.specs.Lists.{are_lists_fit};
ghost use Rattle.steps.specs.TestIntegrityLevel.{is_loose, test_properties, test_integrity_level};
ghost use Rattle.integrity.specs.Levels.{integrity_level};

use crate::IntegrityLevel;
use calls::{Progress, Run};
use internal_methods::Failure;
use own_keys::loading;
use property::Property;

// 7.3.16 step 5.b: a property that the level does not allow.
fn is_loose(level: IntegrityLevel, current: Option<Property>) -> bool
    ensures { result ≡ is_loose (integrity_level level) current }
{
    match current {
        None => false,
        Some(Property::Accessor(_, _, _, configurable)) => configurable, // i
        Some(Property::Data(_, writable, _, configurable)) => match level {
            IntegrityLevel::Sealed => configurable, // i
            IntegrityLevel::Frozen => configurable || writable, // i, ii
        },
    }
}

// 7.3.16 steps 5 and 6
fn test_properties(
    run: &Run<'_>,
    o: u64,
    level: IntegrityLevel,
    keys: &[u64],
    depth: usize,
    progress: &mut Progress,
) -> Result<bool, Failure>
    ensures { out run.now.sheet.now result progress.new ≡ (test_properties (methods depth (context_of run.now)) o (integrity_level level) (map key_from_word keys.now)).run (state_of run.now.sheet.now progress.old) }
{
    for &word in keys {
        let key = store_read::key_from_word(word);
        let current = own_property::get_own_property(run, o, key, depth, progress)?; // 5.a
        if is_loose(level, current) {
            return Ok(false); // 5.b
        }
    }
    Ok(true) // 6
}

// 7.3.16 TestIntegrityLevel ( O, level )
pub fn test_integrity_level(
    run: &Run<'_>,
    o: u64,
    level: IntegrityLevel,
    depth: usize,
    progress: &mut Progress,
) -> Result<bool, Failure>
    requires { are_lists_fit (answers_from run.now.sheet.now progress.old.at progress.old.left) ≡ true }
    ensures { out run.now.sheet.now result progress.new ≡ (test_integrity_level (methods depth (context_of run.now)) o (integrity_level level)).run (state_of run.now.sheet.now progress.old) }
{
    let extensible = extensibility::is_extensible(run, o, depth, progress)?; // 1
    if extensible {
        return Ok(false); // 2
    }
    let list = own_keys::own_property_keys(run, o, depth, progress)?; // 4
    let mut keys = [0u64; 256];
    let count = loading::load_list(run, list, &mut keys);
    test_properties(run, o, level, &keys[..count], depth, progress) // 5, 6
}
