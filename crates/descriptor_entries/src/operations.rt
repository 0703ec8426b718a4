// Completing, validating and merging descriptors by themselves, over byte records.
// A refusal is its number, as docs/REFERENCE.md lists it: specs/Decided.antt and the report for C tell it by that.
ghost use Rattle.std.specs.Prelude.{◌≡◌};
ghost use Rattle.property.specs.Validate.{validate};
ghost use Rattle.descriptor_entries.specs.Operations.{judged, current_property, complete_record, validate_records, merge_records};

use crate::records;
use descriptors::completion;
use property::{Property, PropertyDescriptor};
use record::Counts;
use validation::{merging, outcome};

// Yes or no, the first test that fails, or 0, and the property after it.
// (The number is kept, since `DescriptorsDecided` speaks of it and C reads it.)
#[derive(Clone, Copy)]
pub struct Verdict {
    pub accepted: bool,
    pub failed_test: u64,
    pub after: Option<Property>,
}

// Completing by itself.
pub fn complete_record(n: Counts, bytes: &[u8]) -> Result<Property, u64>
    ensures { result ≡ complete_record n bytes.now }
{
    let d = records::one_descriptor(n, bytes)?;
    Ok(completion::complete_property_descriptor(d))
}

fn judge(extensible: bool, d: PropertyDescriptor, current: Option<Property>) -> Verdict
    ensures { result ≡ judged current (validate extensible d current) }
{
    let v = validation::validate(extensible, d, current);
    Verdict {
        accepted: outcome::is_accepted(v),
        failed_test: outcome::failed_test(v),
        after: outcome::settled(current, v),
    }
}

// Refusal 5: it has not all fields of a data or of an accessor property.
fn current_property(current: PropertyDescriptor) -> Result<Property, u64>
    ensures { result ≡ current_property current }
{
    merging::property_of(current).ok_or(5)
}

// Validating by itself; no current record stands for an absent property.
pub fn validate_records(
    n: Counts,
    extensible: bool,
    bytes: &[u8],
    current: &[u8],
) -> Result<Verdict, u64>
    ensures { result ≡ validate_records n extensible bytes.now current.now }
{
    if current.is_empty() {
        let d = records::one_descriptor(n, bytes)?;
        return Ok(judge(extensible, d, None));
    }
    let (d, current) = records::two_descriptors(n, bytes, current)?;
    let property = current_property(current)?;
    Ok(judge(extensible, d, Some(property)))
}

// Merging by itself: boa's current.fill_with(desc). Refusal 6: one is data and the other an accessor.
pub fn merge_records(n: Counts, current: &[u8], bytes: &[u8]) -> Result<Property, u64>
    ensures { result ≡ merge_records n current.now bytes.now }
{
    let (current, d) = records::two_descriptors(n, current, bytes)?;
    let property = current_property(current)?;
    merging::fill_with(property, d).ok_or(6)
}
