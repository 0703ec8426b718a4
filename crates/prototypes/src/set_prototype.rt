// 10.1.2 and 10.5.2 [[SetPrototypeOf]].
#![tactic(auto, using(calls::proofs::Steps::steps, calls::proofs::EnterLaws::set_prototype_of_goes_on), unfolding(internal_methods::specs::Proxy::proxy_set_prototype_of))]

ghost use Rattle.std.specs.Prelude.{◌≡◌};
ghost use Rattle.store.specs.declared.Object.TheVariants.{Ordinary};
ghost use Rattle.store.specs.Store.{lookup};
ghost use Rattle.store.specs.Words.{store_of};
ghost use Rattle.internal_methods.specs.Ordinary as ordinary;
ghost use Rattle.internal_methods.specs.Proxy.{proxy_set_prototype_of};
ghost use Rattle.internal_methods.specs.Internal.{methods};
ghost use Rattle.calls.specs.Outs.{Fitting, Writes, context_of, out_write, state_of};

use crate::{chain, get_prototype_of};
use calls::{Entered, Progress, Run, Written, answers};
use extensibility::is_extensible;
use internal_methods::Failure;
use store::{Object, OrdinaryObject, ProxyObject};
use store_write::Write;
use value::Value;
use value_operations::equality;

// 10.1.2.1 OrdinarySetPrototypeOf ( O, V )
#[tactic(auto, using(extensibility::proofs::WriteLaws::live), unfolding(internal_methods::specs::Ordinary::ordinary_set_prototype_of))]
fn ordinary_set_prototype_of(run: &Run<'_>, o: u64, object: OrdinaryObject, v: Value) -> Written
    requires { lookup (store_of run.now.store.words.now) o ≡ Some (Ordinary object) }
    ensures { Writes run.now.store.words.now result (ordinary.ordinary_set_prototype_of (store_of run.now.store.words.now) o object v) }
{
    if equality::same_value(v, object.prototype) {
        return Written::nothing(true); // 1, 2
    }
    if !object.extensible {
        return Written::nothing(false); // 3, 4
    }
    if chain::reaches(run.store, o, v) {
        return Written::nothing(false); // 5 to 7.b.i
    }
    let changed = OrdinaryObject {
        prototype: v,
        ..object
    };
    Written {
        accepted: true,
        write: Write::Object(o, Object::Ordinary(changed)),
    } // 8, 9
}

// 10.1.2 and 10.5.2 [[SetPrototypeOf]] ( V )
#[cycle(set_prototype_of_proxy_exotic_set_prototype_of)]
pub fn set_prototype_of(
    run: &Run<'_>,
    o: u64,
    v: Value,
    depth: usize,
    progress: &mut Progress,
) -> Result<Written, Failure>
    ensures result_value { out_write run.now.sheet.now (store_of run.now.store.words.now) result progress.new ≡ ((methods depth (context_of run.now)).set_prototype_of o v).run (state_of run.now.sheet.now progress.old) }
    ensures fitting { Fitting run.now.store.words.now result }
{
    match calls::enter(run.store, o, 1, depth, progress)? {
        Entered::Ordinary(q, _) => {
            let object = calls::ordinary_at(run.store, q);
            Ok(ordinary_set_prototype_of(run, q, object, v))
        }
        Entered::Proxy(p, n) => proxy_exotic_set_prototype_of(run, p, v, n, progress),
    }
}

// 10.5.2 [[SetPrototypeOf]] ( V )
#[cycle(set_prototype_of_proxy_exotic_set_prototype_of)]
fn proxy_exotic_set_prototype_of(
    run: &Run<'_>,
    p: ProxyObject,
    v: Value,
    depth: usize,
    progress: &mut Progress,
) -> Result<Written, Failure>
    ensures result_value { out_write run.now.sheet.now (store_of run.now.store.words.now) result progress.new ≡ (proxy_set_prototype_of (context_of run.now) (methods depth (context_of run.now)) p v).run (state_of run.now.sheet.now progress.old) }
    ensures fitting { Fitting run.now.store.words.now result }
{
    if !calls::has_trap(p, 1) {
        return set_prototype_of(run, p.target, v, depth, progress); // 6
    }
    let answer = answers::next_boolean(run.strings, run.sheet, progress)?; // 7
    if !answer {
        return Ok(Written::nothing(false)); // 8
    }
    let extensible = is_extensible(run, p.target, depth, progress)?; // 9
    if extensible {
        return Ok(Written::nothing(true)); // 10
    }
    let prototype = get_prototype_of(run, p.target, depth, progress)?; // 11
    if !equality::same_value(v, prototype) {
        return Err(Failure::TypeError(4)); // 12
    }
    Ok(Written::nothing(true)) // 13
}
