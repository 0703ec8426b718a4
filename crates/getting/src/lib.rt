// 10.1.8 and 10.5.8 [[Get]]: one cycle of both kinds of object.
#![tactic(auto, using(calls::proofs::Steps::steps, calls::proofs::EnterLaws::get_goes_on), unfolding(internal_methods::specs::Ordinary::ordinary_get, internal_methods::specs::Proxy::proxy_get))]

ghost use Rattle.std.specs.Prelude.{◌≡◌};
ghost use Rattle.internal_methods.specs.Ordinary.{ordinary_get};
ghost use Rattle.internal_methods.specs.Proxy.{proxy_get};
ghost use Rattle.internal_methods.specs.Internal.{methods};
ghost use Rattle.calls.specs.Outs.{context_of, out, state_of};

use calls::{Entered, Progress, Run, answers};
use internal_methods::Failure;
use own_property::target_checks;
use property::Property;
use store::ProxyObject;
use value::{PropertyKey, Value};

// O.[[Get]](P, Receiver)
#[cycle(get_ordinary_get_proxy_exotic_get)]
pub fn get(
    run: &Run<'_>,
    o: u64,
    key: PropertyKey,
    receiver: Value,
    depth: usize,
    progress: &mut Progress,
) -> Result<Value, Failure>
    ensures { out run.now.sheet.now result progress.new ≡ ((methods depth (context_of run.now)).get o key receiver).run (state_of run.now.sheet.now progress.old) }
{
    match calls::enter(run.store, o, 7, depth, progress)? {
        Entered::Ordinary(q, n) => ordinary_get(run, q, key, receiver, n, progress),
        Entered::Proxy(p, n) => proxy_exotic_get(run, p, key, receiver, n, progress),
    }
}

// 10.1.8.1 OrdinaryGet ( O, P, Receiver )
#[cycle(get_ordinary_get_proxy_exotic_get)]
fn ordinary_get(
    run: &Run<'_>,
    o: u64,
    key: PropertyKey,
    receiver: Value,
    depth: usize,
    progress: &mut Progress,
) -> Result<Value, Failure>
    ensures { out run.now.sheet.now result progress.new ≡ (ordinary_get (methods depth (context_of run.now)) o key receiver).run (state_of run.now.sheet.now progress.old) }
{
    // 1
    match own_property::get_own_property(run, o, key, depth, progress)? {
        None => {
            let parent = prototypes::get_prototype_of(run, o, depth, progress)?; // 2.a
            match value_operations::object_of(parent) {
                None => Ok(Value::Undefined), // 2.b
                Some(q) => get(run, q, key, receiver, depth, progress), // 2.c
            }
        }
        Some(Property::Data(v, _, _, _)) => Ok(v), // 3
        Some(Property::Accessor(getter, _, _, _)) => {
            if value_operations::is_undefined(getter) {
                Ok(Value::Undefined) // 6
            } else {
                answers::next_value(run.sheet, progress) // 7
            }
        }
    }
}

// 10.5.8 [[Get]] ( P, Receiver )
#[cycle(get_ordinary_get_proxy_exotic_get)]
fn proxy_exotic_get(
    run: &Run<'_>,
    p: ProxyObject,
    key: PropertyKey,
    receiver: Value,
    depth: usize,
    progress: &mut Progress,
) -> Result<Value, Failure>
    ensures { out run.now.sheet.now result progress.new ≡ (proxy_get (methods depth (context_of run.now)) p key receiver).run (state_of run.now.sheet.now progress.old) }
{
    if !calls::has_trap(p, 7) {
        return get(run, p.target, key, receiver, depth, progress); // 6
    }
    let answer = answers::next_value(run.sheet, progress)?; // 7
    let current = own_property::get_own_property(run, p.target, key, depth, progress)?; // 8
    if target_checks::fixes_other(current, answer) {
        return Err(Failure::TypeError(17)); // 9.a
    }
    if target_checks::lacks_getter(current, answer) {
        return Err(Failure::TypeError(18)); // 9.b
    }
    Ok(answer) // 10
}
