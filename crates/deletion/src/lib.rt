// 10.1.10 and 10.5.10 [[Delete]].
#![tactic(auto, using(calls::proofs::Steps::steps, calls::proofs::EnterLaws::delete_goes_on, extensibility::proofs::WriteLaws::ordinary_below), unfolding(internal_methods::specs::Ordinary::ordinary_delete, internal_methods::specs::Proxy::proxy_delete))]

ghost use Rattle.std.specs.Prelude.{◌≡◌, ◌<◌, ◌^◌};
ghost use Rattle.value.specs.PropertyKey.{key_number};
ghost use Rattle.store.specs.Words.{store_of};
ghost use Rattle.store_write.specs.Write.{Joins};
ghost use Rattle.internal_methods.specs.Ordinary.{ordinary_delete};
ghost use Rattle.internal_methods.specs.Proxy.{proxy_delete};
ghost use Rattle.internal_methods.specs.Internal.{methods};
ghost use Rattle.calls.specs.Outs.{Fitting, context_of, out_write, state_of};

use calls::{Entered, Progress, Run, Written, answers};
use descriptors::attributes;
use extensibility::is_extensible;
use internal_methods::Failure;
use own_property::get_own_property;
use store::ProxyObject;
use store_write::Write;
use value::PropertyKey;

// 10.1.10.1 OrdinaryDelete ( O, P )
fn ordinary_delete(
    run: &Run<'_>,
    o: u64,
    key: PropertyKey,
    depth: usize,
    progress: &mut Progress,
) -> Result<Written, Failure>
    requires { Joins o key }
    ensures result_value { out_write run.now.sheet.now (store_of run.now.store.words.now) result progress.new ≡ (ordinary_delete (context_of run.now) (methods depth (context_of run.now)) o key).run (state_of run.now.sheet.now progress.old) }
    ensures fitting { Fitting run.now.store.words.now result }
{
    // 1
    match get_own_property(run, o, key, depth, progress)? {
        Some(property) => {
            if attributes::is_configurable(property) {
                Ok(Written {
                    accepted: true,
                    write: Write::Remove(o, key),
                }) // 3
            } else {
                Ok(Written::nothing(false)) // 4
            }
        }
        None => Ok(Written::nothing(true)), // 2
    }
}

// 10.1.10 and 10.5.10 [[Delete]] ( P )
#[cycle(delete_proxy_exotic_delete)]
pub fn delete(
    run: &Run<'_>,
    o: u64,
    key: PropertyKey,
    depth: usize,
    progress: &mut Progress,
) -> Result<Written, Failure>
    requires { key_number key < 2 ^ 58 }
    ensures result_value { out_write run.now.sheet.now (store_of run.now.store.words.now) result progress.new ≡ ((methods depth (context_of run.now)).delete o key).run (state_of run.now.sheet.now progress.old) }
    ensures fitting { Fitting run.now.store.words.now result }
{
    match calls::enter(run.store, o, 9, depth, progress)? {
        Entered::Ordinary(q, n) => ordinary_delete(run, q, key, n, progress),
        Entered::Proxy(p, n) => proxy_exotic_delete(run, p, key, n, progress),
    }
}

// 10.5.10 [[Delete]] ( P )
#[cycle(delete_proxy_exotic_delete)]
fn proxy_exotic_delete(
    run: &Run<'_>,
    p: ProxyObject,
    key: PropertyKey,
    depth: usize,
    progress: &mut Progress,
) -> Result<Written, Failure>
    requires { key_number key < 2 ^ 58 }
    ensures result_value { out_write run.now.sheet.now (store_of run.now.store.words.now) result progress.new ≡ (proxy_delete (context_of run.now) (methods depth (context_of run.now)) p key).run (state_of run.now.sheet.now progress.old) }
    ensures fitting { Fitting run.now.store.words.now result }
{
    if !calls::has_trap(p, 9) {
        return delete(run, p.target, key, depth, progress); // 6
    }
    let answer = answers::next_boolean(run.strings, run.sheet, progress)?; // 7
    if answer {
        // 9, 10
        if let Some(property) = get_own_property(run, p.target, key, depth, progress)? {
            if !attributes::is_configurable(property) {
                return Err(Failure::TypeError(21)); // 11
            }
            // 12
            if !is_extensible(run, p.target, depth, progress)? {
                return Err(Failure::TypeError(21)); // 13
            }
        }
    }
    Ok(Written::nothing(answer)) // 8, 10, 14
}
