// 10.1.1 and 10.5.1 [[GetPrototypeOf]].
// set_prototype: 10.1.2 and 10.5.2 [[SetPrototypeOf]]. chain: the walk of 10.1.2.1 step 7.
#![tactic(auto, using(calls::proofs::Steps::steps, calls::proofs::EnterLaws::get_prototype_of_goes_on), unfolding(internal_methods::specs::Proxy::proxy_get_prototype_of))]

ghost use Rattle.std.specs.Prelude.{◌≡◌};
ghost use Rattle.internal_methods.specs.Ordinary.{ordinary_get_prototype_of};
ghost use Rattle.internal_methods.specs.Proxy.{proxy_get_prototype_of};
ghost use Rattle.internal_methods.specs.Internal.{methods};
ghost use Rattle.calls.specs.Outs.{context_of, out, state_of};

use calls::{Entered, Progress, Run, answers};
use extensibility::is_extensible;
use internal_methods::Failure;
use store::{OrdinaryObject, ProxyObject};
use value::Value;
use value_operations::equality;

mod chain;
mod set_prototype;

pub use set_prototype::set_prototype_of;

// 10.1.1.1 OrdinaryGetPrototypeOf ( O )
fn ordinary_get_prototype_of(object: OrdinaryObject) -> Value
    ensures { result ≡ ordinary_get_prototype_of object }
{
    object.prototype // 1
}

// O.[[GetPrototypeOf]]()
#[cycle(get_prototype_of_proxy_exotic_get_prototype_of)]
pub fn get_prototype_of(
    run: &Run<'_>,
    o: u64,
    depth: usize,
    progress: &mut Progress,
) -> Result<Value, Failure>
    ensures { out run.now.sheet.now result progress.new ≡ ((methods depth (context_of run.now)).get_prototype_of o).run (state_of run.now.sheet.now progress.old) }
{
    match calls::enter(run.store, o, 0, depth, progress)? {
        Entered::Ordinary(q, _) => Ok(ordinary_get_prototype_of(calls::ordinary_at(run.store, q))),
        Entered::Proxy(p, n) => proxy_exotic_get_prototype_of(run, p, n, progress),
    }
}

// 10.5.1 [[GetPrototypeOf]] ( )
#[cycle(get_prototype_of_proxy_exotic_get_prototype_of)]
fn proxy_exotic_get_prototype_of(
    run: &Run<'_>,
    p: ProxyObject,
    depth: usize,
    progress: &mut Progress,
) -> Result<Value, Failure>
    ensures { out run.now.sheet.now result progress.new ≡ (proxy_get_prototype_of (methods depth (context_of run.now)) p).run (state_of run.now.sheet.now progress.old) }
{
    if !calls::has_trap(p, 0) {
        return get_prototype_of(run, p.target, depth, progress); // 6
    }
    let answer = answers::next_prototype(run.sheet, progress)?; // 7, 8
    let extensible = is_extensible(run, p.target, depth, progress)?; // 9
    if extensible {
        return Ok(answer); // 10
    }
    let prototype = get_prototype_of(run, p.target, depth, progress)?; // 11
    if !equality::same_value(answer, prototype) {
        return Err(Failure::TypeError(3)); // 12
    }
    Ok(answer) // 13
}
