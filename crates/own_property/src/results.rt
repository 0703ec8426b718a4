// 10.5.5 steps 10 to 17: what [[GetOwnProperty]] makes of its trap's answer.
#![tactic(auto, using(calls::proofs::Steps::steps), unfolding(crate::specs::Result::undefined_result, crate::specs::Result::descriptor_result))]

ghost use Rattle.std.specs.Prelude.{◌≡◌};
ghost use Rattle.internal_methods.specs.Internal.{methods};
ghost use Rattle.calls.specs.Outs.{context_of, out, state_of};
ghost use Rattle.own_property.specs.Result.{undefined_result, descriptor_result};

use crate::target_checks;
use calls::{Progress, Run};
use descriptors::{attributes, completion, errors};
use extensibility::is_extensible;
use internal_methods::Failure;
use property::{DescriptorObject, Property};

// 10.5.5 step 10: the trap answered undefined.
pub fn undefined_result(
    run: &Run<'_>,
    target: u64,
    current: Option<Property>,
    depth: usize,
    progress: &mut Progress,
) -> Result<Option<Property>, Failure>
    ensures { out run.now.sheet.now result progress.new ≡ (undefined_result (methods depth (context_of run.now)) target current).run (state_of run.now.sheet.now progress.old) }
{
    let Some(property) = current else {
        return Ok(None); // a
    };
    if !attributes::is_configurable(property) {
        return Err(Failure::TypeError(8)); // b
    }
    let extensible = is_extensible(run, target, depth, progress)?; // c
    if !extensible {
        return Err(Failure::TypeError(9)); // d
    }
    Ok(None) // e
}

// 10.5.5 steps 11 to 17: the trap answered a descriptor.
#[inline(always)]
pub fn descriptor_result(
    run: &Run<'_>,
    target: u64,
    object: DescriptorObject,
    current: Option<Property>,
    depth: usize,
    progress: &mut Progress,
) -> Result<Option<Property>, Failure>
    ensures { out run.now.sheet.now result progress.new ≡ (descriptor_result (methods depth (context_of run.now)) target object current).run (state_of run.now.sheet.now progress.old) }
{
    let extensible = is_extensible(run, target, depth, progress)?; // 11
    if errors::is_uncallable(object.get) {
        return Err(Failure::TypeError(27)); // 12
    }
    if errors::is_uncallable(object.set) {
        return Err(Failure::TypeError(28)); // 12
    }
    if errors::is_mixed(object) {
        return Err(Failure::TypeError(29)); // 12
    }
    let descriptor = descriptors::to_property_descriptor(object); // 12
    let property = completion::complete_property_descriptor(descriptor); // 13
    let complete = completion::descriptor_of(property);
    if !validation::is_compatible_property_descriptor(extensible, complete, current) {
        return Err(Failure::TypeError(10)); // 14, 15
    }
    if !attributes::is_configurable(property) {
        if target_checks::absent_or_configurable(current) {
            return Err(Failure::TypeError(12)); // 16.a
        }
        if target_checks::is_read_only(property) && target_checks::is_writable(current) {
            return Err(Failure::TypeError(11)); // 16.b
        }
    }
    Ok(Some(property)) // 17
}
