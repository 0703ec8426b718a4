// What a step asks for, done: the operation of each code, with its one write or, in levels, with many.
// creation: codes 1 to 3, 16 and 17. reads: 4, 6, 8, 10 and 11. writes: 5, 7, 9, 12 and 13. listing: 14, with its output. levels: 18 and 19.
// `Performable` speaks of a run and a step's bytes at once, so no type of one says it.
#![tactic(auto)]

ghost use Rattle.std.specs.Prelude.{◌≡◌, true, false, ◌≤◌, ◌<◌};
ghost use Rattle.store.specs.Words.{store_of};
ghost use Rattle.record.specs.Bytes.{byte_at};
ghost use Rattle.record.specs.Step.{step_of};
ghost use Rattle.calls.specs.Outs.{context_of, state_of};
ghost use Rattle.steps.specs.Operation.{operation_of};
ghost use Rattle.steps.specs.Perform.{perform, maximum_calls};
ghost use Rattle.reporting.specs.Performed.{Taken, out_performed};
ghost use Rattle.performing.specs.Results.{Performable, is_reading, is_creation};

use byte_records::value_record;
use calls::{Progress, Run};
use internal_methods::Failure;
use reporting::Performed;

mod creation;
pub mod levels;
pub mod listing;
pub mod reads;
mod writes;

pub const MAXIMUM_PROPERTIES: usize = 256;

// Codes are numbers here and in reads and writes: records, their definitions and C have them, and an enum would be a second list of the same.
// Codes 1 to 3, 16 and 17, of those that there are
fn is_creation(code: u8) -> bool
    ensures { result ≡ is_creation code }
{
    code < 4 || code == 16 || code == 17
}

// Codes 1 to 3, 16 and 17
fn perform_creation(run: &Run<'_>, bytes: &[u8]) -> Result<Performed, Failure>
    requires { Performable run.now.store.words.now run.now.allowance bytes.now × ((1 ≤ byte_at bytes.now 0) × (is_creation (byte_at bytes.now 0) ≡ true)) }
    ensures result_value { (s : Progress) → out_performed run.now.sheet.now (store_of run.now.store.words.now) result s ≡ (perform maximum_calls (context_of run.now) (operation_of (step_of bytes.now))).run (state_of run.now.sheet.now s) }
    ensures taken { Taken run.now.store.words.now result }
{
    let o = u64::from(bytes[1]);
    let v = value_record::value_at(bytes, 11);
    match bytes[0] {
        1 => creation::make_object(run.store, v, false),
        2 => creation::make_proxy(run.store, o, v),
        3 => Ok(creation::revoke(run.store, o)),
        17 => Ok(creation::release(run.store, o)),
        _ => creation::make_object(run.store, v, true),
    }
}

// Codes 1 to 13, 16 and 17 but those of reads
pub fn perform(run: &Run<'_>, bytes: &[u8], progress: &mut Progress) -> Result<Performed, Failure>
    requires { Performable run.now.store.words.now run.now.allowance bytes.now × ((is_reading (byte_at bytes.now 0) ≡ false) × ((1 ≤ byte_at bytes.now 0) × (is_creation (byte_at bytes.now 0) ≡ false → byte_at bytes.now 0 < 14))) }
    ensures result_value { out_performed run.now.sheet.now (store_of run.now.store.words.now) result progress.new ≡ (perform maximum_calls (context_of run.now) (operation_of (step_of bytes.now))).run (state_of run.now.sheet.now progress.old) }
    ensures taken { Taken run.now.store.words.now result }
{
    if is_creation(bytes[0]) {
        perform_creation(run, bytes)
    } else {
        writes::perform_writing(run, bytes, progress)
    }
}
