// The operations that may write: codes 5, 7, 9, 12 and 13.
ghost use Rattle.std.specs.Prelude.{◌≡◌, false, ◌≤◌, ◌<◌};
ghost use Rattle.store.specs.Words.{store_of};
ghost use Rattle.record.specs.Bytes.{byte_at};
ghost use Rattle.record.specs.Step.{step_of};
ghost use Rattle.calls.specs.Outs.{context_of, state_of};
ghost use Rattle.steps.specs.Operation.{operation_of};
ghost use Rattle.steps.specs.Perform.{perform, maximum_calls};
ghost use Rattle.reporting.specs.Performed.{Taken, out_performed};
ghost use Rattle.performing.specs.Results.{Performable, is_reading, write_result};

use crate::reads;
use byte_records::{descriptor_record, value_record};
use calls::{Progress, Run, Written};
use extensibility::prevention;
use internal_methods::Failure;
use reporting::{MAXIMUM_CALLS, Performed};
use steps::Completion;
use value::Value;

fn write_result(done: Result<Written, Failure>) -> Result<Performed, Failure>
    ensures { result ≡ write_result done }
{
    let written = done?;
    Ok(Performed {
        completion: Completion::Value(Value::Boolean(written.accepted)),
        write: written.write,
    })
}

// Codes 5, 7, 9, 12 and 13
pub fn perform_writing(
    run: &Run<'_>,
    bytes: &[u8],
    progress: &mut Progress,
) -> Result<Performed, Failure>
    requires { Performable run.now.store.words.now run.now.allowance bytes.now × ((is_reading (byte_at bytes.now 0) ≡ false) × ((4 ≤ byte_at bytes.now 0) × (byte_at bytes.now 0 < 14))) }
    ensures result_value { out_performed run.now.sheet.now (store_of run.now.store.words.now) result progress.new ≡ (perform maximum_calls (context_of run.now) (operation_of (step_of bytes.now))).run (state_of run.now.sheet.now progress.old) }
    ensures taken { Taken run.now.store.words.now result }
{
    let o = u64::from(bytes[1]);
    match bytes[0] {
        5 => {
            let prototype = value_record::value_at(bytes, 11);
            let set = prototypes::set_prototype_of(run, o, prototype, MAXIMUM_CALLS, progress);
            write_result(set)
        }
        7 => write_result(prevention::prevent_extensions(run, o, MAXIMUM_CALLS, progress)),
        9 => {
            let key = reads::key_at(bytes);
            let object = descriptor_record::descriptor_at(bytes, 29);
            let d = descriptors::to_property_descriptor(object);
            let defined = definition::define_own_property(run, o, key, d, MAXIMUM_CALLS, progress);
            write_result(defined)
        }
        12 => {
            let key = reads::key_at(bytes);
            let v = value_record::value_at(bytes, 11);
            let receiver = value_record::value_at(bytes, 20);
            let set = setting::set(run, o, key, v, receiver, MAXIMUM_CALLS, progress);
            write_result(set)
        }
        _ => {
            let key = reads::key_at(bytes);
            write_result(deletion::delete(run, o, key, MAXIMUM_CALLS, progress))
        }
    }
}
