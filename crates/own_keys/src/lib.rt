// 10.1.11 and 10.5.11 [[OwnPropertyKeys]].
// answered: 10.5.11 steps 7 and 8. marks: steps 14 to 16. messages: the TypeErrors of steps 9 and 17 to 22.
// loading: a list's keys into words, where they are looked at.
#![tactic(auto, using(calls::proofs::Steps::steps, calls::proofs::EnterLaws::own_property_keys_goes_on), unfolding(internal_methods::specs::Proxy::proxy_own_property_keys))]

ghost use Rattle.std.specs.Prelude.{◌≡◌, true, IfOk};
ghost use Rattle.text.specs.Table.{strings_of};
ghost use Rattle.store.specs.Words.{store_of};
ghost use Rattle.internal_methods.specs.Proxy.{proxy_own_property_keys};
ghost use Rattle.internal_methods.specs.Internal.{methods};
ghost use Rattle.sheet.specs.Next.{answers_from};
ghost use Rattle.calls.specs.Outs.{context_of, state_of};
ghost use Rattle.own_keys.specs.Lists.{are_lists_fit};
ghost use Rattle.own_keys.specs.Loading.{Loadable, out_keys};

use crate::loading::KeyList;
use calls::{Entered, Progress, Run};
use internal_methods::Failure;
use store::ProxyObject;

pub mod answered;
pub mod loading;
mod marks;
mod messages;

// Words that are overwritten while keys are looked at: those of a target, their marks, and those that a trap answered. One for all proxies of a call.
#[derive(Drop)]
struct Buffers {
    keys: [u64; 256],
    marks: [u64; 256],
    list: [u64; 256],
}

impl Buffers {
    fn new() -> Self {
        Buffers {
            keys: [0; 256],
            marks: [0; 256],
            list: [0; 256],
        }
    }
}

// 10.1.11.1 OrdinaryOwnPropertyKeys ( O )
fn ordinary_own_property_keys(o: u64) -> KeyList
    ensures { result ≡ KeyList.Own o }
{
    KeyList::Own(o)
}

// 10.1.11 and 10.5.11 [[OwnPropertyKeys]] ( )
// It begins as `keys_of_target` does, and apart from it: over an ordinary object no buffers are made, which would cost more than a short list.
pub fn own_property_keys(
    run: &Run<'_>,
    o: u64,
    depth: usize,
    progress: &mut Progress,
) -> Result<KeyList, Failure>
    requires { are_lists_fit (answers_from run.now.sheet.now progress.old.at progress.old.left) ≡ true }
    ensures result_value { out_keys run.now.sheet.now (strings_of run.now.strings.now) (store_of run.now.store.words.now) result progress.new ≡ ((methods depth (context_of run.now)).own_property_keys o).run (state_of run.now.sheet.now progress.old) }
    ensures loadable { IfOk result (λ list. Loadable run.now.sheet.now list) }
{
    match calls::enter(run.store, o, 10, depth, progress)? {
        Entered::Ordinary(q, _) => Ok(ordinary_own_property_keys(q)),
        Entered::Proxy(p, n) => {
            let mut buffers = Buffers::new();
            proxy_exotic_own_property_keys(run, p, &mut buffers, n, progress)
        }
    }
}

// The same, of a proxy's target.
#[cycle(keys_of_target_proxy_exotic_own_property_keys)]
fn keys_of_target(
    run: &Run<'_>,
    target: u64,
    buffers: &mut Buffers,
    depth: usize,
    progress: &mut Progress,
) -> Result<KeyList, Failure>
    requires { are_lists_fit (answers_from run.now.sheet.now progress.old.at progress.old.left) ≡ true }
    ensures result_value { out_keys run.now.sheet.now (strings_of run.now.strings.now) (store_of run.now.store.words.now) result progress.new ≡ ((methods depth (context_of run.now)).own_property_keys target).run (state_of run.now.sheet.now progress.old) }
    ensures loadable { IfOk result (λ list. Loadable run.now.sheet.now list) }
{
    match calls::enter(run.store, target, 10, depth, progress)? {
        Entered::Ordinary(q, _) => Ok(ordinary_own_property_keys(q)),
        Entered::Proxy(p, n) => proxy_exotic_own_property_keys(run, p, buffers, n, progress),
    }
}

// 10.5.11 [[OwnPropertyKeys]] ( )
#[cycle(keys_of_target_proxy_exotic_own_property_keys)]
fn proxy_exotic_own_property_keys(
    run: &Run<'_>,
    p: ProxyObject,
    buffers: &mut Buffers,
    depth: usize,
    progress: &mut Progress,
) -> Result<KeyList, Failure>
    requires { are_lists_fit (answers_from run.now.sheet.now progress.old.at progress.old.left) ≡ true }
    ensures result_value { out_keys run.now.sheet.now (strings_of run.now.strings.now) (store_of run.now.store.words.now) result progress.new ≡ (proxy_own_property_keys (methods depth (context_of run.now)) p).run (state_of run.now.sheet.now progress.old) }
    ensures loadable { IfOk result (λ list. Loadable run.now.sheet.now list) }
{
    if !calls::has_trap(p, 10) {
        return keys_of_target(run, p.target, buffers, depth, progress); // 6
    }
    let answered = answered::next_keys(run.sheet, progress)?; // 7, 8
    messages::throw_if_duplicate(run.sheet, answered, &mut buffers.list)?; // 9
    let extensible = extensibility::is_extensible(run, p.target, depth, progress)?; // 10
    let target_keys = keys_of_target(run, p.target, buffers, depth, progress)?; // 11
    let count = loading::load_list(run, target_keys, &mut buffers.keys);
    let keys = &buffers.keys[..count];
    marks::mark_configurable(run, p.target, keys, &mut buffers.marks, depth, progress)?; // 14 to 16
    let marks = &buffers.marks[..count];
    let list = &mut buffers.list;
    messages::throw_if_rejected(run.sheet, answered, extensible, keys, marks, list)?; // 17 to 22
    Ok(KeyList::Answered(answered)) // 23
}
