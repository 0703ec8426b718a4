// Completing, validating and merging descriptors over lent memory, which says how many objects and strings there are, and which objects are callable.
// operations: the three over byte records. records: reading those, and refusals 1 to 4.
// Refusals and tests are numbers, as `DescriptorsDecided` and C have them; completing and merging are apart, as C has two functions.
#![tactic(auto)]

ghost use Rattle.std.specs.Prelude.{◌≡◌};
ghost use Rattle.descriptor_entries.specs.Entries.{counts_in, completed_report, answer_report, verdict_report, is_accepted, failed_test, complete_over, validate_over, merge_over};

use crate::operations::Verdict;
use property::Property;
use record::Counts;
use steps::{Completion, Outcome, Report};
use store_read::StoreWords;

pub mod operations;
mod records;

#[tactic(auto, unfolding(crate::specs::Entries::counts_in, reporting::specs::Memory::is_memory))]
fn counts_in(words: &[u64], strings: &[u16]) -> Result<Counts, u64>
    ensures { result ≡ counts_in words.now strings.now }
{
    if reporting::is_memory(words, strings) {
        Ok(step_records::counts_of(StoreWords { words }, strings))
    } else {
        Err(1)
    }
}

fn completed_report(completion: Completion) -> Report
    ensures { result ≡ completed_report completion }
{
    Report {
        outcome: Outcome::Result(completion),
        answers: 0,
        calls: 0,
    }
}

fn answer_report(answer: Result<Property, u64>) -> Report
    ensures { result ≡ answer_report answer }
{
    match answer {
        Ok(p) => completed_report(Completion::Descriptor(p)),
        Err(n) => reporting::refused(n),
    }
}

// The report of a verdict: the property after it.
pub fn verdict_report(verdict: Result<Verdict, u64>) -> Report
    ensures { result ≡ verdict_report verdict }
{
    match verdict {
        Ok(v) => completed_report(v.after.map_or(Completion::Absent, Completion::Descriptor)),
        Err(n) => reporting::refused(n),
    }
}

// Yes; a refusal is none.
pub fn is_accepted(verdict: Result<Verdict, u64>) -> bool
    ensures { result ≡ is_accepted verdict }
{
    verdict.is_ok_and(|v| v.accepted)
}

// The first test that fails; 0 where there is none, and for a refusal.
pub fn failed_test(verdict: Result<Verdict, u64>) -> u64
    ensures { result ≡ failed_test verdict }
{
    verdict.map_or(0, |v| v.failed_test)
}

#[tactic(auto, unfolding(crate::specs::Entries::complete_over))]
pub fn complete(words: &[u64], strings: &[u16], bytes: &[u8]) -> Report
    ensures { result ≡ complete_over words.now strings.now bytes.now }
{
    let counts = counts_in(words, strings);
    answer_report(counts.and_then(|n| operations::complete_record(n, bytes)))
}

#[tactic(auto, unfolding(crate::specs::Entries::validate_over))]
pub fn validate(
    words: &[u64],
    strings: &[u16],
    extensible: bool,
    bytes: &[u8],
    current: &[u8],
) -> Result<Verdict, u64>
    ensures { result ≡ validate_over words.now strings.now extensible bytes.now current.now }
{
    let n = counts_in(words, strings)?;
    operations::validate_records(n, extensible, bytes, current)
}

#[tactic(auto, unfolding(crate::specs::Entries::merge_over))]
pub fn merge(words: &[u64], strings: &[u16], current: &[u8], bytes: &[u8]) -> Report
    ensures { result ≡ merge_over words.now strings.now current.now bytes.now }
{
    let counts = counts_in(words, strings);
    answer_report(counts.and_then(|n| operations::merge_records(n, current, bytes)))
}
