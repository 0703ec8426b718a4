// 10.1.9.2 step 2: [[Set]] of data, on a receiver that is an object.
#![tactic(auto, using(calls::proofs::Steps::steps), unfolding(internal_methods::specs::Ordinary::set_data, internal_methods::specs::Ordinary::set_on_receiver))]

ghost use Rattle.std.specs.Prelude.{◌≡◌};
ghost use Rattle.store.specs.Words.{store_of};
ghost use Rattle.internal_methods.specs.Ordinary.{value_descriptor, set_data, set_on_receiver};
ghost use Rattle.internal_methods.specs.Internal.{methods};
ghost use Rattle.calls.specs.Outs.{Fitting, context_of, out_write, state_of};
ghost use Rattle.definition.specs.Define.{Definable};

use calls::{Progress, Run, Written};
use descriptors::completion;
use internal_methods::Failure;
use property::{DescriptorKind, Property, PropertyDescriptor};
use value::{PropertyKey, Value};

// { [[Value]]: V }
fn value_descriptor(v: Value) -> PropertyDescriptor
    ensures { result ≡ value_descriptor v }
{
    PropertyDescriptor {
        enumerable: None,
        configurable: None,
        kind: DescriptorKind::Data(Some(v), None),
    }
}

// 10.1.9.2 steps 2.c to 2.e, on a receiver that is an object
fn set_on_receiver(
    run: &Run<'_>,
    key: PropertyKey,
    v: Value,
    receiver: u64,
    depth: usize,
    progress: &mut Progress,
) -> Result<Written, Failure>
    requires { Definable run.now.allowance key }
    ensures result_value { out_write run.now.sheet.now (store_of run.now.store.words.now) result progress.new ≡ (set_on_receiver (context_of run.now) (methods depth (context_of run.now)) key v receiver).run (state_of run.now.sheet.now progress.old) }
    ensures fitting { Fitting run.now.store.words.now result }
{
    // 2.c
    let d = match own_property::get_own_property(run, receiver, key, depth, progress)? {
        Some(Property::Data(_, true, _, _)) => value_descriptor(v), // 2.d.iii
        None => completion::descriptor_of(Property::Data(v, true, true, true)), // 2.e, 7.3.5 CreateDataProperty
        _ => return Ok(Written::nothing(false)), // 2.d.i, 2.d.ii
    };
    definition::define_own_property(run, receiver, key, d, depth, progress) // 2.d.iv, 2.e
}

// 10.1.9.2 step 2
pub fn set_data(
    run: &Run<'_>,
    key: PropertyKey,
    v: Value,
    writable: bool,
    receiver: Value,
    depth: usize,
    progress: &mut Progress,
) -> Result<Written, Failure>
    requires { Definable run.now.allowance key }
    ensures result_value { out_write run.now.sheet.now (store_of run.now.store.words.now) result progress.new ≡ (set_data (context_of run.now) (methods depth (context_of run.now)) key v writable receiver).run (state_of run.now.sheet.now progress.old) }
    ensures fitting { Fitting run.now.store.words.now result }
{
    match value_operations::object_of(receiver) {
        Some(o) if writable => {
            set_on_receiver(run, key, v, o, depth, progress) // 2.c to 2.e
        }
        _ => Ok(Written::nothing(false)), // 2.a, 2.b
    }
}
