// 10.1.6 and 10.5.6 [[DefineOwnProperty]].
// checks: 10.5.6 step 15. writing: the write of 10.1.6.3.
#![tactic(auto, using(calls::proofs::Steps::steps, calls::proofs::EnterLaws::define_own_property_goes_on, extensibility::proofs::WriteLaws::ordinary_below, crate::proofs::DefineLaws::ordinary_own), unfolding(internal_methods::specs::Ordinary::ordinary_define_own_property, internal_methods::specs::Proxy::proxy_define_own_property))]

ghost use Rattle.std.specs.Prelude.{◌≡◌};
ghost use Rattle.store.specs.declared.Object.TheVariants.{Ordinary};
ghost use Rattle.store.specs.Store.{lookup};
ghost use Rattle.store.specs.Words.{store_of};
ghost use Rattle.internal_methods.specs.Ordinary.{ordinary_define_own_property};
ghost use Rattle.internal_methods.specs.Proxy.{proxy_define_own_property};
ghost use Rattle.internal_methods.specs.Internal.{methods};
ghost use Rattle.calls.specs.Entering.{ordinary};
ghost use Rattle.calls.specs.Outs.{Fitting, context_of, out_write, state_of};
ghost use Rattle.definition.specs.Define.{Definable};

use calls::{Entered, Progress, Run, Written, answers};
use descriptors::fields;
use internal_methods::Failure;
use property::PropertyDescriptor;
use store::ProxyObject;
use value::PropertyKey;

mod checks;
mod writing;

// 10.1.6.1 OrdinaryDefineOwnProperty ( O, P, Desc )
fn ordinary_define_own_property(
    run: &Run<'_>,
    o: u64,
    key: PropertyKey,
    d: PropertyDescriptor,
    depth: usize,
    progress: &mut Progress,
) -> Result<Written, Failure>
    requires definable { Definable run.now.allowance key }
    requires found { lookup (store_of run.now.store.words.now) o ≡ Some (Ordinary (ordinary (store_of run.now.store.words.now) o)) }
    ensures result_value { out_write run.now.sheet.now (store_of run.now.store.words.now) result progress.new ≡ (ordinary_define_own_property (context_of run.now) (methods depth (context_of run.now)) o key d).run (state_of run.now.sheet.now progress.old) }
    ensures fitting { Fitting run.now.store.words.now result }
{
    let current = own_property::get_own_property(run, o, key, depth, progress)?; // 1
    let extensible = extensibility::is_extensible(run, o, depth, progress)?; // 2
    let v = validation::validate(extensible, d, current);
    writing::apply_validation(run.store, run.allowance, o, key, v) // 3
}

// 10.1.6 and 10.5.6 [[DefineOwnProperty]] ( P, Desc )
#[cycle(define_own_property_proxy_exotic_define_own_property)]
pub fn define_own_property(
    run: &Run<'_>,
    o: u64,
    key: PropertyKey,
    d: PropertyDescriptor,
    depth: usize,
    progress: &mut Progress,
) -> Result<Written, Failure>
    requires { Definable run.now.allowance key }
    ensures result_value { out_write run.now.sheet.now (store_of run.now.store.words.now) result progress.new ≡ ((methods depth (context_of run.now)).define_own_property o key d).run (state_of run.now.sheet.now progress.old) }
    ensures fitting { Fitting run.now.store.words.now result }
{
    match calls::enter(run.store, o, 5, depth, progress)? {
        Entered::Ordinary(q, n) => ordinary_define_own_property(run, q, key, d, n, progress),
        Entered::Proxy(p, n) => proxy_exotic_define_own_property(run, p, key, d, n, progress),
    }
}

// 10.5.6 [[DefineOwnProperty]] ( P, Desc )
#[cycle(define_own_property_proxy_exotic_define_own_property)]
fn proxy_exotic_define_own_property(
    run: &Run<'_>,
    p: ProxyObject,
    key: PropertyKey,
    d: PropertyDescriptor,
    depth: usize,
    progress: &mut Progress,
) -> Result<Written, Failure>
    requires { Definable run.now.allowance key }
    ensures result_value { out_write run.now.sheet.now (store_of run.now.store.words.now) result progress.new ≡ (proxy_define_own_property (context_of run.now) (methods depth (context_of run.now)) p key d).run (state_of run.now.sheet.now progress.old) }
    ensures fitting { Fitting run.now.store.words.now result }
{
    if !calls::has_trap(p, 5) {
        return define_own_property(run, p.target, key, d, depth, progress); // 6
    }
    if !answers::next_boolean(run.strings, run.sheet, progress)? {
        return Ok(Written::nothing(false)); // 9
    }
    let current = own_property::get_own_property(run, p.target, key, depth, progress)?; // 10
    let extensible = extensibility::is_extensible(run, p.target, depth, progress)?; // 11
    match current {
        None => {
            if !extensible {
                return Err(Failure::TypeError(13)); // 14.a
            }
            if fields::is_false(d.configurable) {
                return Err(Failure::TypeError(13)); // 14.b
            }
        }
        Some(target) => {
            if !validation::is_compatible_property_descriptor(extensible, d, current) {
                return Err(Failure::TypeError(14)); // 15.a
            }
            if checks::fixes_configurable(d, target) {
                return Err(Failure::TypeError(15)); // 15.b
            }
            if checks::fixes_writable(d, target) {
                return Err(Failure::TypeError(16)); // 15.c
            }
        }
    }
    Ok(Written::nothing(true)) // 16
}
