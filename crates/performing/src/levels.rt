// Sealing and freezing an object, and the tests whether it is: codes 18 and 19.
// That lists fit is said of the answers still to come, so a clause says it; `is_memory` is asked where words are written.
ghost use Rattle.std.specs.Prelude.{◌≡◌, true, List, ℕ, ◌≤◌, length};
ghost use Rattle.text.specs.Table.{is_table};
ghost use Rattle.store.specs.Store.{maximum_properties};
ghost use Rattle.store.specs.Words.{world_of};
ghost use Rattle.record.specs.Bytes.{value_at};
ghost use Rattle.record.specs.Sheet.{sheet_of, is_sheet};
ghost use Rattle.calls.specs.Outs.{context, state_of};
ghost use Rattle.own_keys.specs.Lists.{are_lists_fit};
ghost use Rattle.integrity.specs.Levels.{integrity_level};
ghost use Rattle.steps.specs.Operation.{level_of, set_integrity_level, test_integrity_level};
ghost use Rattle.steps.specs.Perform.{perform, maximum_calls};
ghost use Rattle.steps.specs.Step.{ended};
ghost use Rattle.reporting.specs.Reports.{start};
ghost use Rattle.reporting.specs.Memory.{is_memory, shown, shown_by, WordsAfter};

use crate::{MAXIMUM_PROPERTIES, creation, reads};
use byte_records::value_record;
use calls::Run;
use integrity::{Inputs, IntegrityLevel};
use reporting::MAXIMUM_CALLS;
use steps::{Outcome, Report};
use store_read::{STORE_SIZE, StoreWords};

// The level of a step's bytes.
pub fn level_at(bytes: &[u8]) -> IntegrityLevel
    requires { 58 ≤ length bytes.now }
    ensures { integrity_level result ≡ level_of (value_at bytes.now 11) }
{
    if creation::natural_of(value_record::value_at(bytes, 11)) == 1 {
        IntegrityLevel::Frozen
    } else {
        IntegrityLevel::Sealed
    }
}

// Code 18. The words from before are kept for the case of a refusal.
#[tactic(auto, using(reporting::proofs::ContractLaws::store_is, reporting::proofs::ContractLaws::table_is))]
pub fn set_level(
    words: &mut [u64],
    strings: &[u16],
    sheet: &[u8],
    o: u64,
    level: IntegrityLevel,
) -> Report
    requires { (is_memory words.old strings.now ≡ true) × ((is_sheet sheet.now ≡ true) × (are_lists_fit (sheet_of sheet.now) ≡ true)) }
    ensures by_index { (output : List ℕ) → shown result words.new strings.now output ≡ shown_by (ended (world_of words.old strings.now) (sheet_of sheet.now) output ((perform maximum_calls (context words.old strings.now maximum_properties) (set_integrity_level o (integrity_level level))).run (state_of sheet.now (start sheet.now)))) }
    ensures words_after { WordsAfter true result.outcome words.old words.new }
{
    let mut before = [0u64; STORE_SIZE];
    store_write::copy_words(&mut before, words);
    let inputs = Inputs {
        strings,
        allowance: MAXIMUM_PROPERTIES,
        sheet,
    };
    let mut progress = reporting::start(sheet);
    let done = integrity::set_integrity_level(
        words,
        &inputs,
        o,
        level,
        MAXIMUM_CALLS,
        &mut progress,
    );
    let report = reporting::reported(sheet, reads::boolean_result(done), progress);
    match report.outcome {
        Outcome::Refused(_) => {
            store_write::copy_words(words, &before);
            report
        }
        _ => report,
    }
}

// Code 19
pub fn test_level(
    store: StoreWords<'_>,
    strings: &[u16],
    sheet: &[u8],
    o: u64,
    level: IntegrityLevel,
) -> Report
    requires { (is_table strings.now ≡ true) × ((is_sheet sheet.now ≡ true) × (are_lists_fit (sheet_of sheet.now) ≡ true)) }
    ensures { (output : List ℕ) → shown result store.entry.words.now strings.now output ≡ shown_by (ended (world_of store.entry.words.now strings.now) (sheet_of sheet.now) output ((perform maximum_calls (context store.entry.words.now strings.now maximum_properties) (test_integrity_level o (integrity_level level))).run (state_of sheet.now (start sheet.now)))) }
{
    let run = Run {
        store,
        strings,
        allowance: MAXIMUM_PROPERTIES,
        sheet,
    };
    let mut progress = reporting::start(sheet);
    let done = integrity::test_integrity_level(&run, o, level, MAXIMUM_CALLS, &mut progress);
    reporting::reported(sheet, reads::boolean_result(done), progress)
}
