// A report as ten words, for C: outcome, refusal or message, answers, calls, form, flags or number of keys,
// then two values, each as its kind and its payload.
// Each form is written out whole: ten words in the order of docs/REFERENCE.md.
// Numbers of outcomes and flags are functions with equations, for C; flags are as a row of the store has them, by another layout.
ghost use Rattle.std.specs.Prelude.{◌≡◌};
ghost use Rattle.store.specs.Words.{flags_of};
ghost use Rattle.steps.specs.declared.Completion.TheVariants.{Descriptor};
ghost use Rattle.steps.specs.declared.Outcome.TheVariants.{Result};
ghost use Rattle.steps.specs.Response.{outcome_number, refusal_or_message};
ghost use Rattle.reporting.specs.ReportWords.{report_words, report_from, ValueTold, Tells};

use property::Property;
use steps::{Completion, Outcome, Report};
use value::Value;
use value_operations::{bits, encoding};

pub fn flags_of(p: Property) -> u64
    ensures { result ≡ flags_of p }
{
    match p {
        Property::Data(_, w, e, c) => bits::weight(w, 2) + bits::weight(e, 4) + bits::weight(c, 8),
        Property::Accessor(_, _, e, c) => 1 + bits::weight(e, 4) + bits::weight(c, 8),
    }
}

pub fn outcome_number(o: Outcome) -> u64
    ensures { result ≡ outcome_number o }
{
    match o {
        Outcome::Refused(_) => 0,
        Outcome::Result(_) => 1,
        Outcome::TypeError(_) => 2,
        Outcome::Thrown(_) => 3,
    }
}

pub fn refusal_or_message(o: Outcome) -> u64
    ensures { result ≡ refusal_or_message o }
{
    match o {
        Outcome::Refused(n) => n,
        Outcome::Result(_) => 0,
        Outcome::TypeError(n) => n,
        Outcome::Thrown(_) => 0,
    }
}

// A value that is a result, 1, or was thrown, 3.
fn value_words(outcome: u64, v: Value, answers: u64, calls: u64) -> [u64; 10]
    ensures { ValueTold outcome v answers calls result }
{
    let first = encoding::words_of(v);
    [
        outcome,
        0,
        answers,
        calls,
        1,
        0,
        first.kind,
        first.payload,
        0,
        0,
    ]
}

fn property_words(p: Property, answers: u64, calls: u64) -> [u64; 10]
    ensures { Tells (Result (Descriptor p)) answers calls result }
{
    match p {
        Property::Data(v, _, _, _) => {
            let first = encoding::words_of(v);
            [
                1,
                0,
                answers,
                calls,
                2,
                flags_of(p),
                first.kind,
                first.payload,
                0,
                0,
            ]
        }
        Property::Accessor(g, s, _, _) => {
            let first = encoding::words_of(g);
            let second = encoding::words_of(s);
            [
                1,
                0,
                answers,
                calls,
                2,
                flags_of(p),
                first.kind,
                first.payload,
                second.kind,
                second.payload,
            ]
        }
    }
}

fn completion_words(c: Completion, answers: u64, calls: u64) -> [u64; 10]
    ensures { Tells (Result c) answers calls result }
{
    match c {
        Completion::Value(v) => value_words(1, v, answers, calls),
        Completion::Descriptor(p) => property_words(p, answers, calls),
        Completion::Absent => [1, 0, answers, calls, 3, 0, 0, 0, 0, 0],
        Completion::Keys(n) => [1, 0, answers, calls, 4, n, 0, 0, 0, 0],
        Completion::Page(n) => [1, 0, answers, calls, 5, n, 0, 0, 0, 0],
    }
}

fn report_words(report: Report) -> [u64; 10]
    ensures { (result ≡ report_words report) × (report_from result ≡ report) }
{
    let outcome = report.outcome;
    let answers = report.answers;
    let calls = report.calls;
    match outcome {
        Outcome::Refused(n) => [0, n, answers, calls, 0, 0, 0, 0, 0, 0],
        Outcome::Result(c) => completion_words(c, answers, calls),
        Outcome::TypeError(n) => [2, n, answers, calls, 0, 0, 0, 0, 0, 0],
        Outcome::Thrown(v) => value_words(3, v, answers, calls),
    }
}

// The words tell the report again. With one place for all entries, the compiler makes them where they are to stand, and copies nothing.
pub fn write_report(report: Report, words: &mut [u64; 10])
    ensures { (words.new ≡ report_words report) × (report_from words.new ≡ report) }
{
    *words = report_words(report);
}
