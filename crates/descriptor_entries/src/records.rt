// A descriptor by itself as a record, and refusals 1 to 4 over one and over two.
// Refusals are numbers, as `DescriptorsDecided` and C have them.
ghost use Rattle.std.specs.Prelude.{◌≡◌, IsTrue, IsFalse, MatchResult};
ghost use Rattle.record.specs.Descriptor.{descriptor_at};
ghost use Rattle.descriptor_entries.specs.Records.{is_record, one_descriptor, two_descriptors};

use byte_records::descriptor_record;
use property::{DescriptorObject, PropertyDescriptor};
use record::Counts;
use step_records::value_tests;

fn read(bytes: &[u8]) -> Result<DescriptorObject, u64>
    ensures { MatchResult result (λ d. IsTrue (is_record bytes.now) × (d ≡ descriptor_at bytes.now 0)) (λ i. IsFalse (is_record bytes.now) × (i ≡ 1)) }
{
    if bytes.len() == 29 && descriptor_record::is_descriptor_at(bytes, 0) {
        Ok(descriptor_record::descriptor_at(bytes, 0))
    } else {
        Err(1)
    }
}

fn refuse_unless(passes: bool, refusal: u64) -> Result<(), u64>
    ensures { MatchResult result (λ _. IsTrue passes) (λ i. IsFalse passes × (i ≡ refusal)) }
{
    if passes { Ok(()) } else { Err(refusal) }
}

#[tactic(auto, unfolding(crate::specs::Records::one_descriptor, record::specs::Tests::first_failing))]
pub fn one_descriptor(n: Counts, bytes: &[u8]) -> Result<PropertyDescriptor, u64>
    ensures { result ≡ one_descriptor n bytes.now }
{
    let object = read(bytes)?;
    refuse_unless(value_tests::are_made(n, object), 2)?;
    refuse_unless(value_tests::are_known(n, object), 3)?;
    refuse_unless(value_tests::is_descriptor(object), 4)?;
    Ok(descriptors::to_property_descriptor(object))
}

// Each number is tested over both before the next.
#[tactic(auto, unfolding(crate::specs::Records::two_descriptors, record::specs::Tests::first_failing))]
pub fn two_descriptors(
    n: Counts,
    a: &[u8],
    b: &[u8],
) -> Result<(PropertyDescriptor, PropertyDescriptor), u64>
    ensures { result ≡ two_descriptors n a.now b.now }
{
    let first = read(a)?;
    let second = read(b)?;
    refuse_unless(value_tests::are_made(n, first), 2)?;
    refuse_unless(value_tests::are_made(n, second), 2)?;
    refuse_unless(value_tests::are_known(n, first), 3)?;
    refuse_unless(value_tests::are_known(n, second), 3)?;
    refuse_unless(value_tests::is_descriptor(first), 4)?;
    refuse_unless(value_tests::is_descriptor(second), 4)?;
    Ok((
        descriptors::to_property_descriptor(first),
        descriptors::to_property_descriptor(second),
    ))
}
