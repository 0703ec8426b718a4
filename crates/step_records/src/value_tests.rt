// Refusals 2, 3 and 4 over a decoded descriptor.
#![tactic(auto, unfolding(record::specs::Tests::is_made, record::specs::Tests::is_known, record::specs::Tests::is_descriptor))]

ghost use Rattle.std.specs.Prelude.{◌≡◌, Bool};
ghost use Rattle.value.specs.declared.Value.{Value};
ghost use Rattle.record.specs.Tests.{is_made, is_known, field_passes, descriptor_passes, is_descriptor};
ghost use Rattle.step_records.specs.Refusals.{Decides};

use descriptors::errors;
use property::DescriptorObject;
use record::Counts;
use value::Value;
use value_operations::bits;

// 2: the object or function is live.
fn is_made(counts: Counts, value: Value) -> bool
    ensures { result ≡ is_made counts value }
{
    match value {
        Value::Object(n) | Value::Function(n) => bits::bit(counts.live, n),
        _ => true,
    }
}

// 3: a string was entered, a symbol number is at most 255, and a function is callable, an object not.
fn is_known(counts: Counts, value: Value) -> bool
    ensures { result ≡ is_known counts value }
{
    match value {
        Value::String(n) => n < counts.strings,
        Value::Symbol(n) => n < 256,
        Value::Object(n) => !bits::bit(counts.callable, n),
        Value::Function(n) => bits::bit(counts.callable, n),
        _ => true,
    }
}

fn field_passes<F: Fn(Value) -> bool>(field: Option<Value>, passes: &F) -> bool
    requires { F.IsAlwaysCallable passes.now }
    ensures { (test : Value → Bool) → Decides test (F.post passes.now) → result ≡ field_passes test field }
{
    match field {
        None => true,
        Some(value) => passes(value),
    }
}

// Whether the values that a descriptor has all pass.
fn descriptor_passes<F: Fn(Value) -> bool>(descriptor: DescriptorObject, passes: F) -> bool
    requires { F.IsAlwaysCallable passes }
    ensures { (test : Value → Bool) → Decides test (F.post passes) → result ≡ descriptor_passes test descriptor }
{
    field_passes(descriptor.value, &passes)
        && field_passes(descriptor.get, &passes)
        && field_passes(descriptor.set, &passes)
}

// 2, of a descriptor's values.
pub fn are_made(counts: Counts, descriptor: DescriptorObject) -> bool
    ensures { result ≡ descriptor_passes (is_made counts) descriptor }
{
    descriptor_passes(descriptor, |value| is_made(counts, value))
}

// 3, of a descriptor's values.
pub fn are_known(counts: Counts, descriptor: DescriptorObject) -> bool
    ensures { result ≡ descriptor_passes (is_known counts) descriptor }
{
    descriptor_passes(descriptor, |value| is_known(counts, value))
}

// 4: it does not mix value or writable with get or set, and its get and set are undefined or functions.
pub fn is_descriptor(descriptor: DescriptorObject) -> bool
    ensures { result ≡ is_descriptor descriptor }
{
    !errors::is_mixed(descriptor)
        && !errors::is_uncallable(descriptor.get)
        && !errors::is_uncallable(descriptor.set)
}
