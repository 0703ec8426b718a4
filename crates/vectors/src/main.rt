// Runs the outside vectors of the leaves, and counts those whose answer is another than the expected one.
// A record of the input is 192 bytes: an operation, its inputs and the expected answer; tests/vectors.mjs makes them. An engine
// answered some, and that script itself the others: each line of the output says which.
#![tactic(auto)]

ghost use Rattle.std.specs.Prelude.{◌+◌, ◌≤◌};

use byte_records::{descriptor_record, numbers, value_record};
use descriptors::completion;
use property::{Property, PropertyDescriptor};
use record::Counts;
use std::io;
use std::io::{ErrorKind, Read};
use step_records::{sheet_refusals, step_refusals, value_refusals};
use text::indices;
use validation::{merging, outcome};
use value_operations::equality;

type Record = [u8; 192];

// The most records that are read.
const RECORDS: u64 = 1_000_000;

#[derive(Clone, Copy, Default)]
struct Count {
    passed: u64,
    failed: u64,
}

impl Count {
    fn add(&mut self, passes: bool) {
        let count = if passes {
            &mut self.passed
        } else {
            &mut self.failed
        };
        *count = count.saturating_add(1);
    }
}

// 1: SameValue
fn same_value(r: &Record) -> bool {
    let (v, w) = (value_record::value_at(r, 1), value_record::value_at(r, 10));
    equality::same_value(v, w) == (r[19] != 0)
}

// 2: ToBoolean
fn to_boolean(r: &Record) -> bool {
    let v = value_record::value_at(r, 1);
    value_operations::to_boolean(v, usize::from(r[10])) == (r[11] != 0)
}

// 3: array indices, of at most 32 code units
fn array_index(r: &Record) -> bool {
    let mut units = [0; 32];
    for (unit, bytes) in units.iter_mut().zip(r[2..66].as_chunks().0) {
        *unit = u16::from_le_bytes(*bytes);
    }
    let name = units.get(..usize::from(r[1]));
    match name.and_then(indices::array_index) {
        Some(index) => r[100] == 1 && index == numbers::word_at(r, 101),
        None => r[100] == 0,
    }
}

// Field by field, values under SameValue.
fn same_property(p: Option<Property>, q: Option<Property>) -> bool {
    match (p, q) {
        (None, None) => true,
        (Some(Property::Data(v, w, e, c)), Some(Property::Data(v2, w2, e2, c2))) => {
            equality::same_value(v, v2) && w == w2 && e == e2 && c == c2
        }
        (Some(Property::Accessor(g, s, e, c)), Some(Property::Accessor(g2, s2, e2, c2))) => {
            equality::same_value(g, g2) && equality::same_value(s, s2) && e == e2 && c == c2
        }
        _ => false,
    }
}

fn descriptor(r: &Record, at: usize) -> PropertyDescriptor
    requires { at + 29 ≤ 192 }
{
    descriptors::to_property_descriptor(descriptor_record::descriptor_at(r, at))
}

// The property that a complete record stands for.
fn property(r: &Record, at: usize) -> Option<Property>
    requires { at + 29 ≤ 192 }
{
    merging::property_of(descriptor(r, at))
}

// The same, where a byte says that there is one.
fn own(r: &Record, present: u8, at: usize) -> Option<Property>
    requires { at + 29 ≤ 192 }
{
    if present != 0 { property(r, at) } else { None }
}

// 4: completing
fn complete(r: &Record) -> bool {
    let completed = completion::complete_property_descriptor(descriptor(r, 1));
    same_property(Some(completed), property(r, 30))
}

// 5: validating
fn validate(r: &Record) -> bool {
    let current = own(r, r[2], 32);
    let validation = validation::validate(r[1] != 0, descriptor(r, 3), current);
    outcome::is_accepted(validation) == (r[61] != 0)
        && outcome::failed_test(validation) == u64::from(r[92])
        && same_property(outcome::settled(current, validation), own(r, r[62], 63))
}

fn counts(r: &Record) -> Counts {
    Counts {
        live: u64::from(r[1]),
        strings: u64::from(r[2]),
        callable: u64::from(r[181]),
    }
}

// 6: the tests of a step. The vectors have refusals 1 to 4, and 0 for none.
fn step_tests(r: &Record) -> bool {
    let Some(step) = r[5..80].get(..usize::from(r[4])) else {
        return false;
    };
    let refusal = match step_refusals::step_refusal(r[3] != 0, counts(r), step) {
        refusal @ 0..=3 => refusal,
        _ if step.len() == 58 && value_refusals::is_descriptor_at(step, 29) => 0,
        _ => 4,
    };
    refusal == u64::from(r[80])
}

// 7: the tests of a sheet. The vectors have refusals 1 to 3, and 0 for none.
fn sheet_tests(r: &Record) -> bool {
    let Some(sheet) = r[4..180].get(..usize::from(r[3])) else {
        return false;
    };
    let refusal = match sheet_refusals::sheet_refusal(counts(r), sheet) {
        refusal @ 0..=3 => refusal,
        _ => 0,
    };
    refusal == u64::from(r[180])
}

// 8: merging, and 9: where it is refused, since one is data and one an accessor
fn merge(r: &Record) -> bool {
    let Some(current) = property(r, 1) else {
        return false;
    };
    match merging::fill_with(current, descriptor(r, 30)) {
        None => r[59] == 6,
        merged => r[59] == 0 && same_property(merged, property(r, 60)),
    }
}

// By the number with which tests/vectors.mjs begins a record.
fn passes(r: &Record) -> bool {
    match r[0] {
        1 => same_value(r),
        2 => to_boolean(r),
        3 => array_index(r),
        4 => complete(r),
        5 => validate(r),
        6 => step_tests(r),
        7 => sheet_tests(r),
        8 | 9 => merge(r),
        _ => false,
    }
}

// False where no whole record is left.
fn read(input: &mut impl Read, r: &mut Record) -> io::Result<bool> {
    match input.read_exact(r) {
        Ok(()) => Ok(true),
        Err(e) if e.kind() == ErrorKind::UnexpectedEof => Ok(false),
        Err(e) => Err(e),
    }
}

fn main(rt: HostRuntime) -> io::Result<()> {
    let mut counts = [Count::default(); 10];
    let mut input = rt.reader();
    for _ in 0..RECORDS {
        let mut r = [0; 192];
        if !read(&mut input, &mut r)? {
            break;
        }
        if let Some(count) = counts.get_mut(usize::from(r[0])) {
            count.add(passes(&r));
        }
    }
    let operations = [
        ("SameValue", "the engine"),
        ("ToBoolean", "the engine"),
        ("array indices", "the engine"),
        ("completing", "the engine"),
        ("validating", "the engine"),
        ("tests of steps", "our script"),
        ("tests of sheets", "our script"),
        ("merging", "the engine"),
        ("merging refused", "our script"),
    ];
    for ((name, author), Count { passed, failed }) in operations.iter().zip(&counts[1..]) {
        println!(rt; "{name}: {passed} as {author} says, {failed} not")?;
    }
    Ok(())
}
