// 10.1.6.3 steps 2 and 6: the write of a validated definition.
#![tactic(auto, using(calls::proofs::Steps::steps), unfolding(internal_methods::specs::Ordinary::apply_validation))]

ghost use Rattle.std.specs.Prelude.{◌≡◌, List, ℕ, ◌≤◌};
ghost use Rattle.store.specs.Store.{own, maximum_properties};
ghost use Rattle.store.specs.Words.{store_of};
ghost use Rattle.store_write.specs.Write.{Joins};
ghost use Rattle.internal_methods.specs.Ordinary.{apply_validation};
ghost use Rattle.calls.specs.declared.progress.Progress.{Progress};
ghost use Rattle.calls.specs.Outs.{Fitting, context, out_write, state_of};

use calls::Written;
use internal_methods::Failure;
use property::{Property, Validation};
use store_read::StoreWords;
use store_write::Write;
use value::PropertyKey;

// 10.1.6.3 steps 2.c, 2.d and 6: the property in its place, or a new one.
fn write_property(
    store: StoreWords<'_>,
    allowance: usize,
    o: u64,
    key: PropertyKey,
    p: Property,
) -> Result<Written, Failure>
    requires { Joins o key × (allowance ≤ maximum_properties) }
    ensures result_value { (bytes cells : List ℕ) (s : Progress) → out_write bytes (store_of store.entry.words.now) result s ≡ (apply_validation (context store.entry.words.now cells allowance) o key (own (store_of store.entry.words.now) o key) (Validation.Becomes p)).run (state_of bytes s) }
    ensures fitting { Fitting store.entry.words.now result }
{
    match store.find(o, key) {
        Some(i) => Ok(Written {
            accepted: true,
            write: Write::Change(i, p),
        }),
        None => {
            if store_write::room(store, allowance) {
                Ok(Written {
                    accepted: true,
                    write: Write::Add(o, key, p),
                })
            } else {
                Err(Failure::Refused(7))
            }
        }
    }
}

// The write of 10.1.6.3, where the store has the property that was validated against.
pub fn apply_validation(
    store: StoreWords<'_>,
    allowance: usize,
    o: u64,
    key: PropertyKey,
    validation: Validation,
) -> Result<Written, Failure>
    requires { Joins o key × (allowance ≤ maximum_properties) }
    ensures result_value { (bytes cells : List ℕ) (s : Progress) → out_write bytes (store_of store.entry.words.now) result s ≡ (apply_validation (context store.entry.words.now cells allowance) o key (own (store_of store.entry.words.now) o key) validation).run (state_of bytes s) }
    ensures fitting { Fitting store.entry.words.now result }
{
    match validation {
        Validation::Rejected(_) => Ok(Written::nothing(false)),
        Validation::Unchanged => Ok(Written::nothing(true)),
        Validation::Becomes(p) => write_property(store, allowance, o, key, p),
    }
}
