// A descriptor in 29 bytes: a presence mask, a byte of booleans, then value, get and set.
ghost use Rattle.std.specs.Prelude.{◌≡◌, not, ◌||◌, ◌+◌, ◌<◌, ◌≤◌, ◌/◌, ◌%◌, eqb, length};
ghost use Rattle.byte_records.specs.Head.{is_head_at};
ghost use Rattle.record.specs.Descriptor.{flag_of, field_of, descriptor_at, are_flags_formed, are_parts_formed, is_descriptor_at, mask_of, flags_of, descriptor_bytes};
ghost use Rattle.std.proofs.lemmas.List.Edits.{sets};

use crate::value_record;
use descriptors::fields;
use property::DescriptorObject;
use value::Value;
use value_operations::bits;

// Whether n has the bit of weight w.
pub fn has_bit(n: u64, w: u64) -> bool
    requires { 0 < w }
    ensures { result ≡ eqb (n / w % 2) 1 }
{
    n / w % 2 == 1
}

fn flag_of(used: bool, b: bool) -> Option<bool>
    ensures { result ≡ flag_of used b }
{
    if used { Some(b) } else { None }
}

fn field_at(used: bool, bytes: &[u8], at: usize) -> Option<Value>
    requires { at + 9 ≤ length bytes.now }
    ensures { result ≡ field_of used bytes.now at }
{
    if used {
        Some(value_record::value_at(bytes, at))
    } else {
        None
    }
}

#[tactic(auto, unfolding(record::specs::Descriptor::descriptor_at))]
pub fn descriptor_at(bytes: &[u8], at: usize) -> DescriptorObject
    requires { at + 29 ≤ length bytes.now }
    ensures { result ≡ descriptor_at bytes.now at }
{
    let mask = u64::from(bytes[at]);
    let flags = u64::from(bytes[at + 1]);
    DescriptorObject {
        enumerable: flag_of(has_bit(mask, 1), has_bit(flags, 1)),
        configurable: flag_of(has_bit(mask, 2), has_bit(flags, 2)),
        writable: flag_of(has_bit(mask, 4), has_bit(flags, 4)),
        value: field_at(has_bit(mask, 8), bytes, at + 2),
        get: field_at(has_bit(mask, 16), bytes, at + 11),
        set: field_at(has_bit(mask, 32), bytes, at + 20),
    }
}

// A boolean stands only where the mask has its bit.
fn is_flag_formed(used: bool, b: bool) -> bool
    ensures { result ≡ (used || not b) }
{
    used || !b
}

fn are_flags_formed(mask: u64, flags: u64) -> bool
    ensures { result ≡ are_flags_formed mask flags }
{
    is_flag_formed(has_bit(mask, 1), has_bit(flags, 1))
        && is_flag_formed(has_bit(mask, 2), has_bit(flags, 2))
        && is_flag_formed(has_bit(mask, 4), has_bit(flags, 4))
}

fn are_parts_formed(mask: u64, bytes: &[u8], at: usize) -> bool
    requires { at + 29 ≤ length bytes.now }
    ensures { result ≡ are_parts_formed mask bytes.now at }
{
    value_record::is_part_at(has_bit(mask, 8), bytes, at + 2)
        && value_record::is_part_at(has_bit(mask, 16), bytes, at + 11)
        && value_record::is_part_at(has_bit(mask, 32), bytes, at + 20)
}

// Refusal 1 over a descriptor's mask and booleans.
pub fn is_head_at(bytes: &[u8], at: usize) -> bool
    requires { at + 29 ≤ length bytes.now }
    ensures { result ≡ is_head_at bytes.now at }
{
    let mask = u64::from(bytes[at]);
    let flags = u64::from(bytes[at + 1]);
    mask < 64 && flags < 8 && are_flags_formed(mask, flags)
}

// Refusal 1 over a descriptor.
#[tactic(auto, using(crate::proofs::DescriptorLaws::by_head))]
pub fn is_descriptor_at(bytes: &[u8], at: usize) -> bool
    requires { at + 29 ≤ length bytes.now }
    ensures { result ≡ is_descriptor_at bytes.now at }
{
    is_head_at(bytes, at) && are_parts_formed(u64::from(bytes[at]), bytes, at)
}

fn mask_of(d: DescriptorObject) -> u64
    ensures { (result ≡ mask_of d) × (result < 64) }
{
    bits::weight(d.enumerable.is_some(), 1)
        + bits::weight(d.configurable.is_some(), 2)
        + bits::weight(d.writable.is_some(), 4)
        + bits::weight(d.value.is_some(), 8)
        + bits::weight(d.get.is_some(), 16)
        + bits::weight(d.set.is_some(), 32)
}

fn flags_of(d: DescriptorObject) -> u64
    ensures { (result ≡ flags_of d) × (result < 8) }
{
    bits::weight(fields::is_true(d.enumerable), 1)
        + bits::weight(fields::is_true(d.configurable), 2)
        + bits::weight(fields::is_true(d.writable), 4)
}

// The 29 bytes of d from `at` on; all others stay.
pub fn put_descriptor(out: &mut [u8], at: usize, d: DescriptorObject)
    requires { at + 29 ≤ length out.old }
    ensures { out.new ≡ sets out.old at (descriptor_bytes d) }
{
    out[at] = mask_of(d) as u8;
    out[at + 1] = flags_of(d) as u8;
    value_record::put_value(out, at + 2, d.value.unwrap_or(Value::Undefined));
    value_record::put_value(out, at + 11, d.get.unwrap_or(Value::Undefined));
    value_record::put_value(out, at + 20, d.set.unwrap_or(Value::Undefined));
}
