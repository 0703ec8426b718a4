// 10.1.5 and 10.5.5 [[GetOwnProperty]].
// results: 10.5.5 steps 10 to 17. target_checks: what all of 10.5 asks of the target's property.
#![tactic(auto, using(calls::proofs::Steps::steps, calls::proofs::EnterLaws::get_own_property_goes_on), unfolding(internal_methods::specs::Proxy::proxy_get_own_property, crate::specs::Result::undefined_result, crate::specs::Result::descriptor_result))]

ghost use Rattle.std.specs.Prelude.{◌≡◌};
ghost use Rattle.store.specs.Words.{store_of};
ghost use Rattle.internal_methods.specs.Ordinary.{ordinary_get_own_property};
ghost use Rattle.internal_methods.specs.Proxy.{proxy_get_own_property};
ghost use Rattle.internal_methods.specs.Internal.{methods};
ghost use Rattle.calls.specs.Outs.{context_of, out, state_of};

use calls::{Entered, Progress, Run, answers};
use internal_methods::Failure;
use property::Property;
use store::ProxyObject;
use value::PropertyKey;

mod results;
pub mod target_checks;

// 10.1.5.1 OrdinaryGetOwnProperty ( O, P )
fn ordinary_get_own_property(run: &Run<'_>, o: u64, key: PropertyKey) -> Option<Property>
    ensures { result ≡ ordinary_get_own_property (store_of run.now.store.words.now) o key }
{
    run.store.own(o, key)
}

// 10.1.5 and 10.5.5 [[GetOwnProperty]] ( P )
#[cycle(get_own_property_proxy_exotic_get_own_property)]
pub fn get_own_property(
    run: &Run<'_>,
    o: u64,
    key: PropertyKey,
    depth: usize,
    progress: &mut Progress,
) -> Result<Option<Property>, Failure>
    ensures { out run.now.sheet.now result progress.new ≡ ((methods depth (context_of run.now)).get_own_property o key).run (state_of run.now.sheet.now progress.old) }
{
    match calls::enter(run.store, o, 4, depth, progress)? {
        Entered::Ordinary(q, _) => Ok(ordinary_get_own_property(run, q, key)),
        Entered::Proxy(p, n) => proxy_exotic_get_own_property(run, p, key, n, progress),
    }
}

// 10.5.5 [[GetOwnProperty]] ( P )
#[cycle(get_own_property_proxy_exotic_get_own_property)]
fn proxy_exotic_get_own_property(
    run: &Run<'_>,
    p: ProxyObject,
    key: PropertyKey,
    depth: usize,
    progress: &mut Progress,
) -> Result<Option<Property>, Failure>
    ensures { out run.now.sheet.now result progress.new ≡ (proxy_get_own_property (methods depth (context_of run.now)) p key).run (state_of run.now.sheet.now progress.old) }
{
    if !calls::has_trap(p, 4) {
        return get_own_property(run, p.target, key, depth, progress); // 6
    }
    let answer = answers::next_descriptor(run.sheet, progress)?; // 7, 8
    let current = get_own_property(run, p.target, key, depth, progress)?; // 9
    match answer {
        None => results::undefined_result(run, p.target, current, depth, progress), // 10
        Some(object) => {
            results::descriptor_result(run, p.target, object, current, depth, progress) // 11 to 17
        }
    }
}
