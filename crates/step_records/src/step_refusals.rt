// Refusals 1 to 3 over a step of 58 bytes: code, object, key, value, receiver, descriptor. Each code has its parts; the others are zero.
// They are numbers, 4 where all three pass, so that the least of several counts; codes are numbers, since the records of C have them.
#![tactic(auto, unfolding(crate::specs::Refusals::named_refusal, crate::specs::Refusals::value_refusal, crate::specs::Refusals::object_refusal, crate::specs::Refusals::key_refusal, crate::specs::Refusals::prototype_refusal, crate::specs::Refusals::bounded_refusal, value::specs::Words::value_of, value::specs::Words::is_formed, record::specs::Bytes::value_at, record::specs::Bytes::is_value_at, record::specs::Tests::is_made, record::specs::Tests::is_known, record::specs::Step::is_at_most_if_integer32))]

ghost use Rattle.std.specs.Prelude.{◌≡◌, cond, ◌&&◌, ◌-◌, ◌≤◌, ◌<◌, min, length};
ghost use Rattle.record.specs.Bytes.{byte_at, number_at, are_zero};
ghost use Rattle.step_records.specs.Refusals.{value_refusal, object_refusal, key_refusal, prototype_refusal, bounded_refusal, descriptor_refusal, step_refusal};

use crate::value_refusals::{descriptor_refusal, named_refusal, number_refusal, value_refusal};
use byte_records::{numbers, value_record};
use record::Counts;
use value_operations::bits;

// Whether the bytes from `at` on are zero, a word at a time; the last word may overlap the one before it.
#[tactic(auto, using(crate::proofs::StepRefusalLaws::zero_runs))]
pub fn are_zero_from(bytes: &[u8], at: usize) -> bool
    requires { (at ≤ 50) × (58 ≤ length bytes.now) }
    ensures { result ≡ are_zero bytes.now at (58 - at) }
{
    for i in (at..50).step_by(8) {
        if numbers::word_at(bytes, i) != 0 {
            return false;
        }
    }
    numbers::word_at(bytes, 50) == 0
}

fn object_refusal(counts: Counts, object: u64) -> u64
    ensures { result ≡ object_refusal counts object }
{
    if bits::bit(counts.live, object) { 4 } else { 2 }
}

// A string or a symbol.
fn key_refusal(counts: Counts, bytes: &[u8; 58]) -> u64
    ensures { result ≡ key_refusal counts bytes.now }
{
    let key = value_record::words_at(bytes, 2);
    match key.kind {
        5 => number_refusal(key.payload, counts.strings, 3),
        6 => number_refusal(key.payload, 256, 3),
        _ => value_refusal(counts, key).min(3),
    }
}

// Null, an object or a function.
fn prototype_refusal(counts: Counts, bytes: &[u8; 58]) -> u64
    ensures { result ≡ prototype_refusal counts bytes.now }
{
    let prototype = value_record::words_at(bytes, 11);
    match prototype.kind {
        1 => number_refusal(prototype.payload, 1, 1),
        7 => named_refusal(counts, prototype.payload, false),
        8 => named_refusal(counts, prototype.payload, true),
        _ => value_refusal(counts, prototype).min(3),
    }
}

// An Integer32 from 0 to `most`.
fn bounded_refusal(most: u64, counts: Counts, bytes: &[u8; 58]) -> u64
    requires { most < 2147483648 }
    ensures { result ≡ bounded_refusal most counts bytes.now }
{
    let number = value_record::words_at(bytes, 11);
    if number.kind == 3 {
        number_refusal(number.payload, most + 1, 1)
    } else {
        value_refusal(counts, number).min(3)
    }
}

// Codes 4, 6, 7, 14 and 17: an object alone.
fn object_step(counts: Counts, object: u64, bytes: &[u8; 58]) -> u64
    ensures { result ≡ cond (are_zero bytes.now 2 56) (object_refusal counts object) 1 }
{
    if are_zero_from(bytes, 2) {
        object_refusal(counts, object)
    } else {
        1
    }
}

// Code 3: an object that is a proxy.
fn revoking_step(proxy: bool, counts: Counts, object: u64, bytes: &[u8; 58]) -> u64
    ensures { result ≡ min (cond proxy 4 3) (cond (are_zero bytes.now 2 56) (object_refusal counts object) 1) }
{
    let found = object_step(counts, object, bytes);
    if proxy { found } else { found.min(3) }
}

// Codes 8, 10 and 13: an object and a key.
fn key_step(counts: Counts, object: u64, bytes: &[u8; 58]) -> u64
    ensures { result ≡ cond (are_zero bytes.now 11 47) (min (object_refusal counts object) (key_refusal counts bytes.now)) 1 }
{
    if are_zero_from(bytes, 11) {
        object_refusal(counts, object).min(key_refusal(counts, bytes))
    } else {
        1
    }
}

// Code 9: object, key and descriptor.
fn definition_step(counts: Counts, object: u64, bytes: &[u8; 58]) -> u64
    ensures { result ≡ cond (are_zero bytes.now 11 9 && are_zero bytes.now 20 9) (min (min (object_refusal counts object) (key_refusal counts bytes.now)) (descriptor_refusal counts bytes.now 29)) 1 }
{
    if value_record::is_zero_at(bytes, 11) && value_record::is_zero_at(bytes, 20) {
        object_refusal(counts, object)
            .min(key_refusal(counts, bytes))
            .min(descriptor_refusal(counts, bytes, 29))
    } else {
        1
    }
}

// Code 11: object, key and receiver.
fn get_step(counts: Counts, object: u64, bytes: &[u8; 58]) -> u64
    ensures { result ≡ cond (are_zero bytes.now 11 9 && are_zero bytes.now 29 29) (min (min (object_refusal counts object) (key_refusal counts bytes.now)) (value_refusal counts (byte_at bytes.now 20) (number_at bytes.now 21 8))) 1 }
{
    if value_record::is_zero_at(bytes, 11) && are_zero_from(bytes, 29) {
        object_refusal(counts, object)
            .min(key_refusal(counts, bytes))
            .min(value_refusal(counts, value_record::words_at(bytes, 20)))
    } else {
        1
    }
}

// Code 12: object, key, value and receiver.
fn set_step(counts: Counts, object: u64, bytes: &[u8; 58]) -> u64
    ensures { result ≡ cond (are_zero bytes.now 29 29) (min (min (min (object_refusal counts object) (key_refusal counts bytes.now)) (value_refusal counts (byte_at bytes.now 11) (number_at bytes.now 12 8))) (value_refusal counts (byte_at bytes.now 20) (number_at bytes.now 21 8))) 1 }
{
    if !are_zero_from(bytes, 29) {
        return 1;
    }
    let value = value_refusal(counts, value_record::words_at(bytes, 11));
    let receiver = value_refusal(counts, value_record::words_at(bytes, 20));
    object_refusal(counts, object)
        .min(key_refusal(counts, bytes))
        .min(value)
        .min(receiver)
}

// Codes 1, 2, 5, 16, 18 and 19: an object or none, and a value, by their refusals.
fn value_step(bytes: &[u8; 58], object: u64, value: u64) -> u64
    ensures { result ≡ cond (are_zero bytes.now 2 9 && are_zero bytes.now 20 38) (min object value) 1 }
{
    if value_record::is_zero_at(bytes, 2) && are_zero_from(bytes, 20) {
        object.min(value)
    } else {
        1
    }
}

// Refusals 1 to 3; `proxy` says whether the step's object is one.
#[tactic(auto, using(crate::proofs::StepRefusalLaws::codes))]
pub fn step_refusal(proxy: bool, counts: Counts, bytes: &[u8]) -> u64
    ensures { result ≡ step_refusal proxy counts bytes.now }
{
    let Some(bytes) = bytes.as_array::<58>() else {
        return 1;
    };
    let object = u64::from(bytes[1]);
    match bytes[0] {
        1 | 16 => value_step(
            bytes,
            number_refusal(object, 1, 1),
            prototype_refusal(counts, bytes),
        ),
        2 => value_step(
            bytes,
            named_refusal(counts, object, false),
            bounded_refusal(2047, counts, bytes),
        ),
        3 => revoking_step(proxy, counts, object, bytes),
        5 => value_step(
            bytes,
            object_refusal(counts, object),
            prototype_refusal(counts, bytes),
        ),
        4 | 6 | 7 | 14 | 17 => object_step(counts, object, bytes),
        8 | 10 | 13 => key_step(counts, object, bytes),
        9 => definition_step(counts, object, bytes),
        11 => get_step(counts, object, bytes),
        12 => set_step(counts, object, bytes),
        18 | 19 => value_step(
            bytes,
            object_refusal(counts, object),
            bounded_refusal(1, counts, bytes),
        ),
        _ => 1,
    }
}
