// 7.3.15 steps 4.a and 5.b: the turn of a key. What it writes stays written, whatever fails after it.
#![tactic(auto, using(crate::proofs::SequenceSteps::steps, crate::proofs::SequenceSteps::committed), unfolding(steps::specs::SetIntegrityLevel::define_property_or_throw, steps::specs::SetIntegrityLevel::freeze_property, steps::specs::SetIntegrityLevel::turn))]

ghost use Rattle.std.specs.Prelude.{◌≡◌, true, ◌^◌, ◌<◌};
ghost use Rattle.value.specs.PropertyKey.{key_number};
ghost use Rattle.store.specs.Words.{is_store, store_of};
ghost use Rattle.store_write.specs.Write.{Committed};
ghost use Rattle.calls.specs.Outs.{out, state_of};
ghost use Rattle.steps.specs.SetIntegrityLevel.{frozen_descriptor, define_property_or_throw, freeze_property, turn};
ghost use Rattle.integrity.specs.Levels.{integrity_level};
ghost use Rattle.integrity.specs.Over.{methods_over};

use crate::{Inputs, IntegrityLevel};
use calls::Progress;
use internal_methods::Failure;
use property::{DescriptorKind, Property, PropertyDescriptor};
use store_read::StoreWords;
use value::PropertyKey;

// { [[Configurable]]: false }
const SEALED: PropertyDescriptor = PropertyDescriptor {
    enumerable: None,
    configurable: Some(false),
    kind: DescriptorKind::Generic,
};

// { [[Configurable]]: false, [[Writable]]: false }
const READ_ONLY: PropertyDescriptor = PropertyDescriptor {
    enumerable: None,
    configurable: Some(false),
    kind: DescriptorKind::Data(None, Some(false)),
};

// 7.3.15 step 5.b.ii
fn frozen_descriptor(p: Property) -> PropertyDescriptor
    ensures { result ≡ frozen_descriptor p }
{
    match p {
        Property::Accessor(_, _, _, _) => SEALED, // 1
        Property::Data(_, _, _, _) => READ_ONLY, // 2
    }
}

// 7.3.8 DefinePropertyOrThrow ( O, P, desc )
fn define_property_or_throw(
    words: &mut [u64],
    inputs: &Inputs<'_>,
    o: u64,
    key: PropertyKey,
    d: PropertyDescriptor,
    depth: usize,
    progress: &mut Progress,
) -> Result<(), Failure>
    requires store { is_store words.old ≡ true }
    requires number { key_number key < 2 ^ 58 }
    ensures words_after { (out inputs.now.sheet.now result progress.new, store_of words.new) ≡ (define_property_or_throw (methods_over depth inputs.now) o key d).run (store_of words.old) (state_of inputs.now.sheet.now progress.old) }
    ensures committed { Committed words.old words.new }
{
    let run = inputs.over(StoreWords { words });
    let defined = definition::define_own_property(&run, o, key, d, depth, progress)?; // 1
    store_write::commit(words, defined.write);
    if !defined.accepted {
        return Err(Failure::TypeError(32)); // 2
    }
    Ok(()) // 3
}

// 7.3.15 step 5.b
fn freeze_property(
    words: &mut [u64],
    inputs: &Inputs<'_>,
    o: u64,
    key: PropertyKey,
    depth: usize,
    progress: &mut Progress,
) -> Result<(), Failure>
    requires store { is_store words.old ≡ true }
    requires number { key_number key < 2 ^ 58 }
    ensures words_after { (out inputs.now.sheet.now result progress.new, store_of words.new) ≡ (freeze_property (methods_over depth inputs.now) o key).run (store_of words.old) (state_of inputs.now.sheet.now progress.old) }
    ensures committed { Committed words.old words.new }
{
    let run = inputs.over(StoreWords { words });
    let current = own_property::get_own_property(&run, o, key, depth, progress)?; // i
    match current {
        None => Ok(()),
        Some(p) => {
            let d = frozen_descriptor(p);
            define_property_or_throw(words, inputs, o, key, d, depth, progress) // ii
        }
    }
}

// 7.3.15 steps 4.a and 5.b
pub fn turn(
    words: &mut [u64],
    inputs: &Inputs<'_>,
    o: u64,
    level: IntegrityLevel,
    key: PropertyKey,
    depth: usize,
    progress: &mut Progress,
) -> Result<(), Failure>
    requires store { is_store words.old ≡ true }
    requires number { key_number key < 2 ^ 58 }
    ensures words_after { (out inputs.now.sheet.now result progress.new, store_of words.new) ≡ (turn (methods_over depth inputs.now) o (integrity_level level) key).run (store_of words.old) (state_of inputs.now.sheet.now progress.old) }
    ensures committed { Committed words.old words.new }
{
    match level {
        IntegrityLevel::Sealed => {
            define_property_or_throw(words, inputs, o, key, SEALED, depth, progress) // 4.a
        }
        IntegrityLevel::Frozen => freeze_property(words, inputs, o, key, depth, progress), // 5.b
    }
}
