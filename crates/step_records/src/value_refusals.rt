// Refusals 1 to 3 over a value, a part and a descriptor in bytes; and refusal 4 over a descriptor.
// They are numbers, 4 where all three tests pass, so that of several the least counts.
#![tactic(auto, unfolding(crate::specs::Refusals::named_refusal, crate::specs::Refusals::value_refusal, crate::specs::Refusals::part_refusal, value::specs::Words::value_of, value::specs::Words::is_formed, record::specs::Bytes::value_at, record::specs::Bytes::is_value_at, record::specs::Bytes::is_part_at, record::specs::Bytes::are_zero, record::specs::Descriptor::descriptor_at, record::specs::Tests::is_made, record::specs::Tests::is_known, record::specs::Tests::is_descriptor))]

ghost use Rattle.std.specs.Prelude.{◌≡◌, cond, ◌+◌, ◌≤◌, ltb, length};
ghost use Rattle.record.specs.Tests.{is_descriptor};
ghost use Rattle.record.specs.Descriptor.{descriptor_at};
ghost use Rattle.step_records.specs.Refusals.{named_refusal, value_refusal, part_refusal, descriptor_refusal};

use crate::value_tests;
use byte_records::{descriptor_record, value_record};
use record::Counts;
use value::Words;
use value_operations::bits;

pub fn number_refusal(payload: u64, limit: u64, refusal: u64) -> u64
    ensures { result ≡ cond (ltb payload limit) 4 refusal }
{
    if payload < limit { 4 } else { refusal }
}

// An object, or where it is to be callable a function.
pub fn named_refusal(counts: Counts, object: u64, callable: bool) -> u64
    ensures { result ≡ named_refusal counts object callable }
{
    if !bits::bit(counts.live, object) {
        2
    } else if bits::bit(counts.callable, object) == callable {
        4
    } else {
        3
    }
}

pub fn value_refusal(counts: Counts, words: Words) -> u64
    ensures { result ≡ value_refusal counts words.kind words.payload }
{
    match words.kind {
        0 | 1 => number_refusal(words.payload, 1, 1),
        2 => number_refusal(words.payload, 2, 1),
        3 => number_refusal(words.payload, 1 << 32, 1),
        4 => 4,
        5 => number_refusal(words.payload, counts.strings, 3),
        6 => number_refusal(words.payload, 256, 3),
        7 => named_refusal(counts, words.payload, false),
        8 => named_refusal(counts, words.payload, true),
        _ => 1,
    }
}

// A part that is not used is zero.
pub fn part_refusal(used: bool, counts: Counts, bytes: &[u8], at: usize) -> u64
    requires { at + 9 ≤ length bytes.now }
    ensures { result ≡ part_refusal used counts bytes.now at }
{
    if used {
        value_refusal(counts, value_record::words_at(bytes, at))
    } else if value_record::is_zero_at(bytes, at) {
        4
    } else {
        1
    }
}

#[tactic(auto, using(crate::proofs::ValueLaws::no_head, crate::proofs::ValueLaws::three_parts))]
pub fn descriptor_refusal(counts: Counts, bytes: &[u8], at: usize) -> u64
    requires { at + 29 ≤ length bytes.now }
    ensures { result ≡ descriptor_refusal counts bytes.now at }
{
    if !descriptor_record::is_head_at(bytes, at) {
        return 1;
    }
    let mask = u64::from(bytes[at]);
    let value = part_refusal(descriptor_record::has_bit(mask, 8), counts, bytes, at + 2);
    let get = part_refusal(descriptor_record::has_bit(mask, 16), counts, bytes, at + 11);
    let set = part_refusal(descriptor_record::has_bit(mask, 32), counts, bytes, at + 20);
    value.min(get).min(set)
}

// Refusal 4: without get and set there is nothing to mix or to call.
pub fn is_descriptor_at(bytes: &[u8], at: usize) -> bool
    requires { at + 29 ≤ length bytes.now }
    ensures { result ≡ is_descriptor (descriptor_at bytes.now at) }
{
    bytes[at] < 16 || value_tests::is_descriptor(descriptor_record::descriptor_at(bytes, at))
}
