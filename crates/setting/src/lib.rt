// 10.1.9 and 10.5.9 [[Set]]: one cycle of both kinds of object.
// receiver: 10.1.9.2 step 2, on data.
#![tactic(auto, using(calls::proofs::Steps::steps, calls::proofs::EnterLaws::set_goes_on), unfolding(internal_methods::specs::Ordinary::ordinary_set, internal_methods::specs::Proxy::proxy_set))]

ghost use Rattle.std.specs.Prelude.{◌≡◌};
ghost use Rattle.store.specs.Words.{store_of};
ghost use Rattle.internal_methods.specs.Ordinary.{ordinary_set};
ghost use Rattle.internal_methods.specs.Proxy.{proxy_set};
ghost use Rattle.internal_methods.specs.Internal.{methods};
ghost use Rattle.calls.specs.Outs.{Fitting, context_of, out_write, state_of};
ghost use Rattle.definition.specs.Define.{Definable};

use calls::{Entered, Progress, Run, Written, answers};
use internal_methods::Failure;
use own_property::target_checks;
use property::Property;
use store::ProxyObject;
use value::{PropertyKey, Value};

mod receiver;

// O.[[Set]](P, V, Receiver)
#[cycle(set_ordinary_set_proxy_exotic_set)]
pub fn set(
    run: &Run<'_>,
    o: u64,
    key: PropertyKey,
    v: Value,
    receiver: Value,
    depth: usize,
    progress: &mut Progress,
) -> Result<Written, Failure>
    requires { Definable run.now.allowance key }
    ensures result_value { out_write run.now.sheet.now (store_of run.now.store.words.now) result progress.new ≡ ((methods depth (context_of run.now)).set o key v receiver).run (state_of run.now.sheet.now progress.old) }
    ensures fitting { Fitting run.now.store.words.now result }
{
    match calls::enter(run.store, o, 8, depth, progress)? {
        Entered::Ordinary(q, n) => ordinary_set(run, q, key, v, receiver, n, progress),
        Entered::Proxy(p, n) => proxy_exotic_set(run, p, key, v, receiver, n, progress),
    }
}

// 10.1.9.1 OrdinarySet ( O, P, V, Receiver ), with 10.1.9.2 OrdinarySetWithOwnDescriptor
#[cycle(set_ordinary_set_proxy_exotic_set)]
fn ordinary_set(
    run: &Run<'_>,
    o: u64,
    key: PropertyKey,
    v: Value,
    receiver: Value,
    depth: usize,
    progress: &mut Progress,
) -> Result<Written, Failure>
    requires { Definable run.now.allowance key }
    ensures result_value { out_write run.now.sheet.now (store_of run.now.store.words.now) result progress.new ≡ (ordinary_set (context_of run.now) (methods depth (context_of run.now)) o key v receiver).run (state_of run.now.sheet.now progress.old) }
    ensures fitting { Fitting run.now.store.words.now result }
{
    // 10.1.9.1 step 1
    match own_property::get_own_property(run, o, key, depth, progress)? {
        None => {
            let parent = prototypes::get_prototype_of(run, o, depth, progress)?; // 1.a
            match value_operations::object_of(parent) {
                Some(q) => set(run, q, key, v, receiver, depth, progress), // 1.b
                None => {
                    receiver::set_data(run, key, v, true, receiver, depth, progress) // 1.c
                }
            }
        }
        Some(Property::Data(_, writable, _, _)) => {
            receiver::set_data(run, key, v, writable, receiver, depth, progress) // 2
        }
        Some(Property::Accessor(_, setter, _, _)) => {
            let accepted = !value_operations::is_undefined(setter); // 5
            if accepted {
                answers::next_value(run.sheet, progress)?; // 6
            }
            Ok(Written::nothing(accepted)) // 5, 7
        }
    }
}

// 10.5.9 [[Set]] ( P, V, Receiver )
#[cycle(set_ordinary_set_proxy_exotic_set)]
fn proxy_exotic_set(
    run: &Run<'_>,
    p: ProxyObject,
    key: PropertyKey,
    v: Value,
    receiver: Value,
    depth: usize,
    progress: &mut Progress,
) -> Result<Written, Failure>
    requires { Definable run.now.allowance key }
    ensures result_value { out_write run.now.sheet.now (store_of run.now.store.words.now) result progress.new ≡ (proxy_set (context_of run.now) (methods depth (context_of run.now)) p key v receiver).run (state_of run.now.sheet.now progress.old) }
    ensures fitting { Fitting run.now.store.words.now result }
{
    if !calls::has_trap(p, 8) {
        return set(run, p.target, key, v, receiver, depth, progress); // 6
    }
    let answer = answers::next_boolean(run.strings, run.sheet, progress)?; // 7
    if answer {
        let current = own_property::get_own_property(run, p.target, key, depth, progress)?; // 9
        if target_checks::fixes_other(current, v) {
            return Err(Failure::TypeError(19)); // 10.a
        }
        if target_checks::lacks_setter(current) {
            return Err(Failure::TypeError(20)); // 10.b
        }
    }
    Ok(Written::nothing(answer)) // 8, 11
}
