// 10.1.4 and 10.5.4 [[PreventExtensions]].
#![tactic(auto, using(calls::proofs::Steps::steps, calls::proofs::EnterLaws::prevent_extensions_goes_on, crate::proofs::WriteLaws::ordinary_live), unfolding(internal_methods::specs::Proxy::proxy_prevent_extensions))]

ghost use Rattle.std.specs.Prelude.{◌≡◌};
ghost use Rattle.store.specs.Words.{store_of};
ghost use Rattle.internal_methods.specs.Proxy.{proxy_prevent_extensions};
ghost use Rattle.internal_methods.specs.Internal.{methods};
ghost use Rattle.calls.specs.Outs.{Fitting, context_of, out_write, state_of};
ghost use Rattle.extensibility.specs.Prevention.{prevention};

use crate::is_extensible;
use calls::{Entered, Progress, Run, Written, answers};
use internal_methods::Failure;
use store::{Object, OrdinaryObject, ProxyObject};
use store_write::Write;

// 10.1.4.1 OrdinaryPreventExtensions ( O ), the write of step 1
fn ordinary_prevent_extensions(o: u64, object: OrdinaryObject) -> Write
    ensures { result ≡ prevention o object }
{
    let prevented = OrdinaryObject {
        prototype: object.prototype,
        extensible: false,
    };
    Write::Object(o, Object::Ordinary(prevented))
}

// 10.1.4 and 10.5.4 [[PreventExtensions]] ( )
#[cycle(prevent_extensions_proxy_exotic_prevent_extensions)]
pub fn prevent_extensions(
    run: &Run<'_>,
    o: u64,
    depth: usize,
    progress: &mut Progress,
) -> Result<Written, Failure>
    ensures result_value { out_write run.now.sheet.now (store_of run.now.store.words.now) result progress.new ≡ ((methods depth (context_of run.now)).prevent_extensions o).run (state_of run.now.sheet.now progress.old) }
    ensures fitting { Fitting run.now.store.words.now result }
{
    match calls::enter(run.store, o, 3, depth, progress)? {
        Entered::Ordinary(q, _) => Ok(Written {
            accepted: true, // 10.1.4.1 step 2
            write: ordinary_prevent_extensions(q, calls::ordinary_at(run.store, q)),
        }),
        Entered::Proxy(p, n) => proxy_exotic_prevent_extensions(run, p, n, progress),
    }
}

// 10.5.4 [[PreventExtensions]] ( )
#[cycle(prevent_extensions_proxy_exotic_prevent_extensions)]
fn proxy_exotic_prevent_extensions(
    run: &Run<'_>,
    p: ProxyObject,
    depth: usize,
    progress: &mut Progress,
) -> Result<Written, Failure>
    ensures result_value { out_write run.now.sheet.now (store_of run.now.store.words.now) result progress.new ≡ (proxy_prevent_extensions (context_of run.now) (methods depth (context_of run.now)) p).run (state_of run.now.sheet.now progress.old) }
    ensures fitting { Fitting run.now.store.words.now result }
{
    if !calls::has_trap(p, 3) {
        return prevent_extensions(run, p.target, depth, progress); // 6
    }
    let answer = answers::next_boolean(run.strings, run.sheet, progress)?; // 7
    if answer && is_extensible(run, p.target, depth, progress)? {
        return Err(Failure::TypeError(6)); // 8
    }
    Ok(Written::nothing(answer)) // 9
}
