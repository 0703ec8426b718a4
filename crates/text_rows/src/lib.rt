// Rows of a text: a line's number and its report.
// A place goes beside the bytes it is in, since its bound speaks of both; a row ends its value where a page has a column.
// digits: decimal and hexadecimal digits into lent bytes.
#![tactic(auto)]

ghost use Rattle.std.specs.Prelude.{◌≡◌, [], ◌∷◌, ◌++◌, ◌+◌, ◌*◌, ◌<◌, ◌≤◌, length};
ghost use Rattle.std.proofs.lemmas.List.Edits.{sets};
ghost use Rattle.property.specs.Descriptor.{descriptor_of, from_property_descriptor};
ghost use Rattle.record.specs.Bytes.{value_bytes};
ghost use Rattle.record.specs.Characters.{space, decimal};
ghost use Rattle.record.specs.Descriptor.{descriptor_bytes};
ghost use Rattle.text_form.specs.Rows.{heading};
ghost use Rattle.text_rows.specs.ReportRows.{completion_bytes, outcome_bytes, report_row, CompletionHeld, Held, maximum_row};
ghost use Rattle.text_rows.specs.Written.{Written, last_cell};

use byte_records::{descriptor_record, value_record};
use descriptors::completion;
use property::Property;
use reporting::report_words;
use steps::{Completion, Outcome, Report};
use value::Value;

pub mod digits;

// No row is longer.
pub const MAXIMUM_ROW: usize = 4714;

// The 40 bytes of the heading; all others stay.
pub fn put_heading(rows: &mut [u8])
    requires { 40 ≤ length rows.old }
    ensures { rows.new ≡ sets rows.old 0 heading }
{
    let heading = b"line outcome number answers calls value\n";
    rows[..heading.len()].copy_from_slice(heading);
}

// A number and a space.
fn put_number(rows: &mut [u8], at: usize, n: u64) -> usize
    requires { at + 21 ≤ length rows.old }
    ensures { Written rows.old rows.new at (decimal n ++ (space ∷ [])) 21 result }
{
    let end = digits::put_decimal(rows, at, n);
    rows[end] = b' ';
    end + 1
}

fn put_dash(rows: &mut [u8], at: usize) -> usize
    requires { at + 2 ≤ length rows.old }
    ensures { Written rows.old rows.new at (last_cell []) 2 result }
{
    rows[at] = b'-';
    rows[at + 1] = b'\n';
    at + 2
}

// Bytes in hexadecimal digits and a line feed.
fn put_bytes(rows: &mut [u8], at: usize, bytes: &[u8]) -> usize
    requires { (0 < length bytes.now) × (at + 2 * length bytes.now < length rows.old) }
    ensures { Written rows.old rows.new at (last_cell bytes.now) (2 * length bytes.now + 1) result }
{
    let end = digits::put_hexadecimal(rows, at, bytes);
    rows[end] = b'\n';
    end + 1
}

fn put_value(rows: &mut [u8], at: usize, v: Value) -> usize
    requires { at + 19 ≤ length rows.old }
    ensures { Written rows.old rows.new at (last_cell (value_bytes v)) 19 result }
{
    let mut bytes = [0u8; 9];
    value_record::put_value(&mut bytes, 0, v);
    put_bytes(rows, at, &bytes)
}

fn put_property(rows: &mut [u8], at: usize, p: Property) -> usize
    requires { at + 59 ≤ length rows.old }
    ensures { Written rows.old rows.new at (last_cell (descriptor_bytes (from_property_descriptor (descriptor_of p)))) 59 result }
{
    let mut bytes = [0u8; 29];
    descriptor_record::put_descriptor(
        &mut bytes,
        0,
        descriptors::from_property_descriptor(completion::descriptor_of(p)),
    );
    put_bytes(rows, at, &bytes)
}

// 256 keys and a line feed are 4609 bytes.
fn put_completion(rows: &mut [u8], at: usize, c: Completion, output: &[u8]) -> usize
    requires { (at + 4609 ≤ length rows.old) × CompletionHeld c output.now }
    ensures { Written rows.old rows.new at (last_cell (completion_bytes c output.now)) 4609 result }
{
    match c {
        Completion::Value(v) => put_value(rows, at, v),
        Completion::Descriptor(p) => put_property(rows, at, p),
        Completion::Absent => put_dash(rows, at),
        Completion::Keys(n) => {
            if n == 0 {
                put_dash(rows, at)
            } else {
                let size = 9 * n as usize;
                put_bytes(rows, at, &output[..size])
            }
        }
        Completion::Page(_) => put_dash(rows, at),
    }
}

fn put_outcome(rows: &mut [u8], at: usize, outcome: Outcome, output: &[u8]) -> usize
    requires { (at + 4609 ≤ length rows.old) × Held outcome output.now }
    ensures { Written rows.old rows.new at (last_cell (outcome_bytes outcome output.now)) 4609 result }
{
    match outcome {
        Outcome::Refused(_) => put_dash(rows, at),
        Outcome::Result(c) => put_completion(rows, at, c, output),
        Outcome::TypeError(_) => put_dash(rows, at),
        Outcome::Thrown(v) => put_value(rows, at, v),
    }
}

// The row of a report, whose keys stand in the output, from `at` on; all other bytes stay. The place after it.
pub fn put_row(rows: &mut [u8], at: usize, line: u64, report: Report, output: &[u8]) -> usize
    requires { (at + maximum_row ≤ length rows.old) × Held report.outcome output.now }
    ensures rows_after { (rows.new ≡ sets rows.old at (report_row line report output.now)) × (result ≡ at + length (report_row line report output.now)) }
    ensures upper_bound { result ≤ at + maximum_row }
{
    let outcome = report.outcome;
    let answers = report.answers;
    let calls = report.calls;
    let second = put_number(rows, at, line);
    let third = put_number(rows, second, report_words::outcome_number(outcome));
    let fourth = put_number(rows, third, report_words::refusal_or_message(outcome));
    let fifth = put_number(rows, fourth, answers);
    let last = put_number(rows, fifth, calls);
    put_outcome(rows, last, outcome, output)
}
