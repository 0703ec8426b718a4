// 10.1.3 and 10.5.3 [[IsExtensible]].
// prevention: 10.1.4 and 10.5.4 [[PreventExtensions]].
#![tactic(auto, using(calls::proofs::Steps::steps, calls::proofs::EnterLaws::is_extensible_goes_on), unfolding(internal_methods::specs::Proxy::proxy_is_extensible))]

ghost use Rattle.std.specs.Prelude.{◌≡◌};
ghost use Rattle.internal_methods.specs.Ordinary.{ordinary_is_extensible};
ghost use Rattle.internal_methods.specs.Proxy.{proxy_is_extensible};
ghost use Rattle.internal_methods.specs.Internal.{methods};
ghost use Rattle.calls.specs.Outs.{context_of, out, state_of};

use calls::{Entered, Progress, Run, answers};
use internal_methods::Failure;
use store::{OrdinaryObject, ProxyObject};

pub mod prevention;

// 10.1.3.1 OrdinaryIsExtensible ( O )
fn ordinary_is_extensible(object: OrdinaryObject) -> bool
    ensures { result ≡ ordinary_is_extensible object }
{
    object.extensible // 1
}

// 7.2.5 IsExtensible ( O )
#[cycle(is_extensible_proxy_exotic_is_extensible)]
pub fn is_extensible(
    run: &Run<'_>,
    o: u64,
    depth: usize,
    progress: &mut Progress,
) -> Result<bool, Failure>
    ensures { out run.now.sheet.now result progress.new ≡ ((methods depth (context_of run.now)).is_extensible o).run (state_of run.now.sheet.now progress.old) }
{
    match calls::enter(run.store, o, 2, depth, progress)? {
        Entered::Ordinary(q, _) => Ok(ordinary_is_extensible(calls::ordinary_at(run.store, q))),
        Entered::Proxy(p, n) => proxy_exotic_is_extensible(run, p, n, progress),
    }
}

// 10.5.3 [[IsExtensible]] ( )
#[cycle(is_extensible_proxy_exotic_is_extensible)]
fn proxy_exotic_is_extensible(
    run: &Run<'_>,
    p: ProxyObject,
    depth: usize,
    progress: &mut Progress,
) -> Result<bool, Failure>
    ensures { out run.now.sheet.now result progress.new ≡ (proxy_is_extensible (context_of run.now) (methods depth (context_of run.now)) p).run (state_of run.now.sheet.now progress.old) }
{
    if !calls::has_trap(p, 2) {
        return is_extensible(run, p.target, depth, progress); // 6
    }
    let answer = answers::next_boolean(run.strings, run.sheet, progress)?; // 7
    let extensible = is_extensible(run, p.target, depth, progress)?; // 8
    if answer != extensible {
        return Err(Failure::TypeError(5)); // 9
    }
    Ok(answer) // 10
}
