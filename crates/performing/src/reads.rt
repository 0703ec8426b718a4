// The operations that write nothing and list no keys: codes 4, 6, 8, 10 and 11.
ghost use Rattle.std.specs.Prelude.{◌≡◌, true, List, ℕ, ◌≤◌, length};
ghost use Rattle.value.specs.PropertyKey.{key_of};
ghost use Rattle.store.specs.Words.{store_of, world_of};
ghost use Rattle.record.specs.Bytes.{byte_at, value_at};
ghost use Rattle.record.specs.Sheet.{sheet_of, is_sheet};
ghost use Rattle.record.specs.Step.{step_of};
ghost use Rattle.calls.specs.Outs.{context_of, state_of};
ghost use Rattle.steps.specs.Operation.{key_or_first, operation_of};
ghost use Rattle.steps.specs.Perform.{perform, maximum_calls};
ghost use Rattle.steps.specs.Step.{ended};
ghost use Rattle.reporting.specs.Performed.{Plain, out_completed};
ghost use Rattle.reporting.specs.Memory.{shown, shown_by};
ghost use Rattle.performing.specs.Results.{Performable, value_result, boolean_result, is_reading, own_completion, own_property_result};

use byte_records::value_record;
use calls::{Progress, Run};
use internal_methods::Failure;
use property::Property;
use reporting::MAXIMUM_CALLS;
use steps::{Completion, Report};
use value::{PropertyKey, Value};
use value_operations::keys;

fn value_result(done: Result<Value, Failure>) -> Result<Completion, Failure>
    ensures told { result ≡ value_result done }
    ensures plain { Plain result }
{
    Ok(Completion::Value(done?))
}

pub fn boolean_result(done: Result<bool, Failure>) -> Result<Completion, Failure>
    ensures told { result ≡ boolean_result done }
    ensures plain { Plain result }
{
    Ok(Completion::Value(Value::Boolean(done?)))
}

fn own_completion(own: Option<Property>) -> Completion
    ensures { result ≡ own_completion own }
{
    match own {
        None => Completion::Absent,
        Some(p) => Completion::Descriptor(p),
    }
}

fn own_property_result(done: Result<Option<Property>, Failure>) -> Result<Completion, Failure>
    ensures told { result ≡ own_property_result done }
    ensures plain { Plain result }
{
    Ok(own_completion(done?))
}

// The key of a step that has one.
fn key_or_first(v: Value) -> PropertyKey
    ensures { result ≡ key_or_first (key_of v) }
{
    keys::key_of(v).unwrap_or(PropertyKey::String(0))
}

// The key of a step's bytes.
pub fn key_at(bytes: &[u8]) -> PropertyKey
    requires { 58 ≤ length bytes.now }
    ensures { result ≡ key_or_first (key_of (value_at bytes.now 2)) }
{
    key_or_first(value_record::value_at(bytes, 2))
}

// The codes of the methods that write nothing and list no keys.
#[tactic(auto, unfolding(crate::specs::Results::is_reading))]
pub fn is_reading(code: u64) -> bool
    ensures { result ≡ is_reading code }
{
    matches!(code, 4 | 6 | 8 | 10 | 11)
}

fn read(run: &Run<'_>, bytes: &[u8], progress: &mut Progress) -> Result<Completion, Failure>
    requires { Performable run.now.store.words.now run.now.allowance bytes.now × (is_reading (byte_at bytes.now 0) ≡ true) }
    ensures result_value { out_completed run.now.sheet.now (store_of run.now.store.words.now) result progress.new ≡ (perform maximum_calls (context_of run.now) (operation_of (step_of bytes.now))).run (state_of run.now.sheet.now progress.old) }
    ensures plain { Plain result }
{
    let o = u64::from(bytes[1]);
    match bytes[0] {
        4 => value_result(prototypes::get_prototype_of(run, o, MAXIMUM_CALLS, progress)),
        6 => boolean_result(extensibility::is_extensible(run, o, MAXIMUM_CALLS, progress)),
        8 => {
            let key = key_at(bytes);
            let own = own_property::get_own_property(run, o, key, MAXIMUM_CALLS, progress);
            own_property_result(own)
        }
        10 => {
            let key = key_at(bytes);
            boolean_result(has_property::has_property(run, o, key, MAXIMUM_CALLS, progress))
        }
        _ => {
            let key = key_at(bytes);
            let receiver = value_record::value_at(bytes, 20);
            value_result(getting::get(run, o, key, receiver, MAXIMUM_CALLS, progress))
        }
    }
}

// Codes 4, 6, 8, 10 and 11
pub fn perform_reading(run: &Run<'_>, bytes: &[u8], progress: Progress) -> Report
    requires { Performable run.now.store.words.now run.now.allowance bytes.now × ((is_sheet run.now.sheet.now ≡ true) × (is_reading (byte_at bytes.now 0) ≡ true)) }
    ensures { (output : List ℕ) → shown result run.now.store.words.now run.now.strings.now output ≡ shown_by (ended (world_of run.now.store.words.now run.now.strings.now) (sheet_of run.now.sheet.now) output ((perform maximum_calls (context_of run.now) (operation_of (step_of bytes.now))).run (state_of run.now.sheet.now progress))) }
{
    let mut progress = progress;
    let done = read(run, bytes, &mut progress);
    reporting::reported(run.sheet, done, progress)
}
