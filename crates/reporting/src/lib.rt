// What a step reports once its run has ended, and the commit of its write; whether lent memory is a store and a table.
// report_words: a report as ten words, for C.
#![tactic(auto)]

ghost use Rattle.std.specs.Prelude.{◌≡◌, true, ◌<◌, ◌-◌, length};
ghost use Rattle.store.specs.Words.{is_store};
ghost use Rattle.record.specs.Sheet.{sheet_of, is_sheet};
ghost use Rattle.calls.specs.Outs.{state_of};
ghost use Rattle.steps.specs.Perform.{maximum_calls};
ghost use Rattle.steps.specs.Response.{report_of, refusal};
ghost use Rattle.reporting.specs.Memory.{is_memory};
ghost use Rattle.reporting.specs.Performed.{Taken};
ghost use Rattle.reporting.specs.Reports.{start, ended_report, failure_report, completion_report, reported, performed_report, Finished};

use calls::Progress;
use internal_methods::Failure;
use steps::{Completion, Outcome, Report};
use store_write::Write;

pub mod report_words;

// An operation's result, with its one write.
#[derive(Clone, Copy)]
pub struct Performed {
    pub completion: Completion,
    pub write: Write,
}

pub const MAXIMUM_CALLS: usize = 2048;

// Whether the words are a store and the cells a table.
#[tactic(auto, unfolding(crate::specs::Memory::is_memory))]
pub fn is_memory(words: &[u64], strings: &[u16]) -> bool
    ensures { result ≡ is_memory words.now strings.now }
{
    store_read::is_store(words) && text::is_table(strings)
}

// Where a step begins: at the first answer, with all its calls.
pub fn start(sheet: &[u8]) -> Progress
    requires { 0 < length sheet.now }
    ensures { result ≡ start sheet.now }
{
    Progress {
        at: 1,
        left: usize::from(sheet[0]),
        calls: MAXIMUM_CALLS,
    }
}

// The calls made so far.
fn calls_made(progress: Progress) -> u64
    ensures { result ≡ maximum_calls - progress.calls }
{
    MAXIMUM_CALLS.saturating_sub(progress.calls) as u64
}

// A refusal reports zeros.
pub fn refused(n: u64) -> Report
    ensures { result ≡ report_of (refusal n) }
{
    Report {
        outcome: Outcome::Refused(n),
        answers: 0,
        calls: 0,
    }
}

// That the bytes are a sheet is a clause of what counts its answers alone: methods hold over any bytes, so `Run` cannot say it.
// Refusal 13 if an answer is left; otherwise all that the sheet counts were used.
#[tactic(auto, using(crate::proofs::SheetLaws::sheet_there, crate::proofs::SheetLaws::ended_unread, crate::proofs::SheetLaws::ended_read))]
fn ended(sheet: &[u8], outcome: Outcome, progress: Progress) -> Report
    requires { is_sheet sheet.now ≡ true }
    ensures { result ≡ ended_report (sheet_of sheet.now) outcome (state_of sheet.now progress) }
{
    if 0 < progress.left {
        return refused(13);
    }
    Report {
        outcome,
        answers: u64::from(sheet[0]),
        calls: calls_made(progress),
    }
}

pub fn failed(sheet: &[u8], f: Failure, progress: Progress) -> Report
    requires { is_sheet sheet.now ≡ true }
    ensures { result ≡ failure_report (sheet_of sheet.now) f (state_of sheet.now progress) }
{
    match f {
        Failure::Refused(n) => refused(n),
        Failure::TypeError(n) => ended(sheet, Outcome::TypeError(n), progress),
        Failure::Thrown(v) => ended(sheet, Outcome::Thrown(v), progress),
    }
}

pub fn completed(sheet: &[u8], c: Completion, progress: Progress) -> Report
    requires { is_sheet sheet.now ≡ true }
    ensures { result ≡ completion_report (sheet_of sheet.now) c (state_of sheet.now progress) }
{
    ended(sheet, Outcome::Result(c), progress)
}

// Of an operation that wrote nothing.
pub fn reported(sheet: &[u8], done: Result<Completion, Failure>, progress: Progress) -> Report
    requires { is_sheet sheet.now ≡ true }
    ensures { result ≡ reported sheet.now done progress }
{
    match done {
        Ok(c) => completed(sheet, c, progress),
        Err(f) => failed(sheet, f, progress),
    }
}

// The one write is made here, once the result stands and no answer is left.
#[tactic(auto, using(crate::proofs::SheetLaws::positive, crate::proofs::SheetLaws::ended_unread, crate::proofs::EndLaws::is_written, crate::proofs::EndLaws::is_unwritten))]
pub fn finish(
    words: &mut [u64],
    sheet: &[u8],
    performed: Result<Performed, Failure>,
    progress: Progress,
) -> Report
    requires { (is_sheet sheet.now ≡ true) × ((is_store words.old ≡ true) × Taken words.old performed) }
    ensures value { result ≡ performed_report sheet.now performed progress }
    ensures finished { Finished words.old words.new performed progress }
{
    match performed {
        Err(f) => failed(sheet, f, progress),
        Ok(p) => {
            if progress.left == 0 {
                store_write::commit(words, p.write);
                return completed(sheet, p.completion, progress);
            }
            refused(13)
        }
    }
}
