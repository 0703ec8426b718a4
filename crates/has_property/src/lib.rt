// 10.1.7 and 10.5.7 [[HasProperty]]: one cycle of both kinds of object.
#![tactic(auto, using(calls::proofs::Steps::steps, calls::proofs::EnterLaws::has_property_goes_on), unfolding(internal_methods::specs::Ordinary::ordinary_has_property, internal_methods::specs::Proxy::proxy_has_property))]

ghost use Rattle.std.specs.Prelude.{◌≡◌};
ghost use Rattle.internal_methods.specs.Ordinary.{ordinary_has_property};
ghost use Rattle.internal_methods.specs.Proxy.{proxy_has_property};
ghost use Rattle.internal_methods.specs.Internal.{methods};
ghost use Rattle.calls.specs.Outs.{context_of, out, state_of};

use calls::{Entered, Progress, Run, answers};
use descriptors::attributes;
use internal_methods::Failure;
use store::ProxyObject;
use value::PropertyKey;

// O.[[HasProperty]](P)
#[cycle(has_property_ordinary_has_property_proxy_exotic_has_property)]
pub fn has_property(
    run: &Run<'_>,
    o: u64,
    key: PropertyKey,
    depth: usize,
    progress: &mut Progress,
) -> Result<bool, Failure>
    ensures { out run.now.sheet.now result progress.new ≡ ((methods depth (context_of run.now)).has_property o key).run (state_of run.now.sheet.now progress.old) }
{
    match calls::enter(run.store, o, 6, depth, progress)? {
        Entered::Ordinary(q, n) => ordinary_has_property(run, q, key, n, progress),
        Entered::Proxy(p, n) => proxy_exotic_has_property(run, p, key, n, progress),
    }
}

// 10.1.7.1 OrdinaryHasProperty ( O, P )
#[cycle(has_property_ordinary_has_property_proxy_exotic_has_property)]
fn ordinary_has_property(
    run: &Run<'_>,
    o: u64,
    key: PropertyKey,
    depth: usize,
    progress: &mut Progress,
) -> Result<bool, Failure>
    ensures { out run.now.sheet.now result progress.new ≡ (ordinary_has_property (methods depth (context_of run.now)) o key).run (state_of run.now.sheet.now progress.old) }
{
    // 1
    match own_property::get_own_property(run, o, key, depth, progress)? {
        Some(_) => Ok(true), // 2
        None => {
            let parent = prototypes::get_prototype_of(run, o, depth, progress)?; // 3
            match value_operations::object_of(parent) {
                Some(q) => has_property(run, q, key, depth, progress), // 4
                None => Ok(false), // 5
            }
        }
    }
}

// 10.5.7 [[HasProperty]] ( P )
#[cycle(has_property_ordinary_has_property_proxy_exotic_has_property)]
fn proxy_exotic_has_property(
    run: &Run<'_>,
    p: ProxyObject,
    key: PropertyKey,
    depth: usize,
    progress: &mut Progress,
) -> Result<bool, Failure>
    ensures { out run.now.sheet.now result progress.new ≡ (proxy_has_property (context_of run.now) (methods depth (context_of run.now)) p key).run (state_of run.now.sheet.now progress.old) }
{
    if !calls::has_trap(p, 6) {
        return has_property(run, p.target, key, depth, progress); // 6
    }
    if answers::next_boolean(run.strings, run.sheet, progress)? {
        return Ok(true); // 7, 9
    }
    // 8.a
    match own_property::get_own_property(run, p.target, key, depth, progress)? {
        None => Ok(false), // 9
        Some(current) => {
            if !attributes::is_configurable(current) {
                return Err(Failure::TypeError(10)); // 8.b.i
            }
            // 8.b.ii
            if extensibility::is_extensible(run, p.target, depth, progress)? {
                Ok(false) // 9
            } else {
                Err(Failure::TypeError(10)) // 8.b.iii
            }
        }
    }
}
