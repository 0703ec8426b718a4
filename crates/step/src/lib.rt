// The interface: a step over lent memory, and the entering of a string.
#![tactic(auto)]

ghost use Rattle.std.specs.Prelude.{◌≡◌, true};
ghost use Rattle.store.specs.Store.{maximum_properties};
ghost use Rattle.store.specs.Words.{world_of};
ghost use Rattle.record.specs.Tests.{first_failing};
ghost use Rattle.record.specs.Sheet.{sheet_of};
ghost use Rattle.steps.specs.Operation.{writes_in_turn, asked};
ghost use Rattle.steps.specs.Step.{record_tests, ended, ran};
ghost use Rattle.step.specs.Entry.{entry_report};
ghost use Rattle.reporting.specs.Memory.{is_memory, shown, shown_by, WordsAfter, Stepped, StringEntered};

use calls::Run;
use performing::{MAXIMUM_PROPERTIES, levels, listing, reads};
use steps::{Completion, Outcome, Report};
use store_read::StoreWords;
use text::{EntryError, entry};
use value::Value;

// What the methods of a step read, at one lifetime.
#[tactic(auto, using(reporting::proofs::ContractLaws::store_is, reporting::proofs::ContractLaws::table_is))]
fn run_over<'a>(words: &'a [u64], strings: &'a [u16], sheet: &'a [u8]) -> Run<'a>
    requires { is_memory words.now strings.now ≡ true }
    ensures words { result.store.words.now ≡ words.now }
    ensures strings { result.strings.now ≡ strings.now }
    ensures allowance { result.allowance ≡ maximum_properties }
    ensures sheet { result.sheet.now ≡ sheet.now }
{
    Run {
        store: StoreWords { words },
        strings,
        allowance: MAXIMUM_PROPERTIES,
        sheet,
    }
}

// A step whose records passed their tests.
// (Its code is a number, as in performing.)
#[tactic(auto, using(reporting::proofs::ContractLaws::store_is))]
fn run(words: &mut [u64], strings: &[u16], bytes: &[u8], sheet: &[u8], output: &mut [u8]) -> Report
    requires { (is_memory words.old strings.now ≡ true) × (first_failing (record_tests (world_of words.old strings.now) bytes.now sheet.now) ≡ None) }
    ensures output_after { shown result words.new strings.now output.new ≡ shown_by (ended (world_of words.old strings.now) (sheet_of sheet.now) output.old (ran (world_of words.old strings.now) bytes.now sheet.now)) }
    ensures words_after { WordsAfter (writes_in_turn (asked bytes.now)) result.outcome words.old words.new }
{
    let code = bytes[0];
    let o = u64::from(bytes[1]);
    if code == 14 {
        return listing::list(StoreWords { words }, strings, sheet, o, output);
    }
    if code == 18 {
        return levels::set_level(words, strings, sheet, o, levels::level_at(bytes));
    }
    if code == 19 {
        let level = levels::level_at(bytes);
        return levels::test_level(StoreWords { words }, strings, sheet, o, level);
    }
    let run = run_over(words, strings, sheet);
    let mut progress = reporting::start(sheet);
    if reads::is_reading(u64::from(code)) {
        return reads::perform_reading(&run, bytes, progress);
    }
    let performed = performing::perform(&run, bytes, &mut progress);
    reporting::finish(words, sheet, performed, progress)
}

// One step. Words that are no store, and cells that are no table, are refused as 1.
pub fn step(
    words: &mut [u64],
    strings: &[u16],
    bytes: &[u8],
    sheet: &[u8],
    output: &mut [u8],
) -> Report
    ensures { Stepped words.old strings.now bytes.now sheet.now output.old result words.new output.new }
{
    if !reporting::is_memory(words, strings) {
        return reporting::refused(1);
    }
    match step_records::record_refusal(StoreWords { words }, strings, bytes, sheet) {
        Some(n) => reporting::refused(n),
        None => run(words, strings, bytes, sheet, output),
    }
}

// The report of entering a string.
fn entered(answer: Result<u64, EntryError>) -> Report
    ensures { result ≡ entry_report answer }
{
    match answer {
        Err(e) => reporting::refused(entry::refusal_number(e)),
        Ok(n) => Report {
            outcome: Outcome::Result(Completion::Value(Value::String(n))),
            answers: 0,
            calls: 0,
        },
    }
}

// A string's code units are entered; an equal string has its number already. Cells that are no table are refused as 1.
pub fn enter_string(strings: &mut [u16], units: &[u16]) -> Report
    ensures { StringEntered strings.old units.now result strings.new }
{
    entered(entry::enter(strings, units))
}
