// How a call begins: past each proxy without its trap, counted at each, at the methods of an object's kind.
#![tactic(auto, using(crate::proofs::Hops::hops))]

ghost use Rattle.std.specs.Prelude.{◌≡◌, List, ℕ, ◌<◌, IfOk};
ghost use Rattle.internal_methods.specs.Proxy.{has_trap};
ghost use Rattle.store.specs.Words.{store_of};
ghost use Rattle.calls.specs.Entering.{IsEntered, entering, ordinary};
ghost use Rattle.calls.specs.Outs.{out, state_of};

use crate::{Entered, Progress};
use internal_methods::Failure;
use store::{Object, OrdinaryObject, ProxyObject};
use store_read::StoreWords;
use value::Value;

// Is the trap of this number there?
// (A trap is the number of its bit in the mask, any below 64; of those of an enum fewer could be asked for.)
#[tactic(auto, unfolding(internal_methods::specs::Proxy::has_trap))]
pub fn has_trap(p: ProxyObject, trap: u64) -> bool
    requires { trap < 64 }
    ensures { result ≡ has_trap p trap }
{
    (p.traps >> trap) % 2 == 1
}

// The parts of the ordinary object where a call arrived.
pub fn ordinary_at(store: StoreWords<'_>, o: u64) -> OrdinaryObject
    ensures { result ≡ ordinary (store_of store.entry.words.now) o }
{
    match store.object_at(o) {
        Some(Object::Ordinary(object)) => object,
        _ => OrdinaryObject {
            prototype: Value::Undefined,
            extensible: false,
        },
    }
}

// Down the targets past each proxy without the trap, one call and one level less at each, as long as there are both.
fn go_down(
    store: StoreWords<'_>,
    o: u64,
    trap: u64,
    depth: usize,
    progress: &mut Progress,
) -> Result<Entered, Failure>
    requires { trap < 64 }
    ensures arrives { (sheet : List ℕ) → out sheet result progress.new ≡ (entering trap (store_of store.entry.words.now) depth o).run (state_of sheet progress.old) }
    ensures same_place { (progress.new.at ≡ progress.old.at) × (progress.new.left ≡ progress.old.left) }
    ensures place { IfOk result (λ e. IsEntered trap (store_of store.entry.words.now) depth e) }
{
    let mut object = o;
    let hops = depth.min(progress.calls);
    for left in (depth - hops..depth).rev() {
        progress.calls -= 1;
        match store.object_at(object) {
            None => return Err(Failure::Refused(2)),
            Some(Object::Ordinary(_)) => return Ok(Entered::Ordinary(object, left)),
            Some(Object::Proxy(p)) => {
                if p.revoked {
                    return Err(Failure::TypeError(1));
                }
                if has_trap(p, trap) {
                    return Ok(Entered::Proxy(p, left));
                }
                object = p.target;
            }
        }
    }
    Err(Failure::Refused(10))
}

// `depth` is how many calls deep methods may still go. An ordinary object is there at once, if a call is left and no more calls than levels, as in every run.
pub fn enter(
    store: StoreWords<'_>,
    o: u64,
    trap: u64,
    depth: usize,
    progress: &mut Progress,
) -> Result<Entered, Failure>
    requires { trap < 64 }
    ensures arrives { (sheet : List ℕ) → out sheet result progress.new ≡ (entering trap (store_of store.entry.words.now) depth o).run (state_of sheet progress.old) }
    ensures same_place { (progress.new.at ≡ progress.old.at) × (progress.new.left ≡ progress.old.left) }
    ensures place { IfOk result (λ e. IsEntered trap (store_of store.entry.words.now) depth e) }
{
    let calls = progress.calls;
    if store.is_ordinary_at(o) && 0 < calls && calls <= depth {
        progress.calls = calls - 1;
        return Ok(Entered::Ordinary(o, depth - 1));
    }
    go_down(store, o, trap, depth, progress)
}
