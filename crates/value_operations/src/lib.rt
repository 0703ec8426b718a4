// What a value is: its language type, ToBoolean, IsCallable, and the object that it may be.
// equality: SameValue. keys: values as property keys, and back. encoding: values as kind and payload, and back.
// bits: which bit is set, and what a bit weighs.
#![tactic(auto)]

ghost use Rattle.std.specs.Prelude.{◌≡◌, not, ◌&&◌, ℕ};
ghost use Rattle.value.specs.Value.{type_of, to_boolean, is_undefined, is_callable, object_of, is_zero, is_not_a_number};

use value::Value;

pub mod bits;
pub mod encoding;
pub mod equality;
pub mod keys;

// By number, as the definition has it: types are only compared.
pub fn type_of(v: Value) -> u64
    ensures { result ≡ type_of v }
{
    match v {
        Value::Undefined => 0,
        Value::Null => 1,
        Value::Boolean(_) => 2,
        Value::Integer32(_) | Value::Float64(_) => 3,
        Value::String(_) => 4,
        Value::Symbol(_) => 5,
        Value::Object(_) => 6,
        Value::Function(_) => 7,
    }
}

fn number_to_boolean(x: f64) -> bool
    ensures { result ≡ (not (is_zero x) && not (is_not_a_number x)) }
{
    !x.is_nan() && x != 0.0
}

// 7.1.2 ToBoolean; `length` is the length of the string that v is, if it is one.
#[tactic(auto, unfolding(value::specs::Value::to_boolean))]
pub fn to_boolean(v: Value, length: usize) -> bool
    ensures { result ≡ to_boolean (λ (_ : ℕ). length) v }
{
    match v {
        Value::Undefined | Value::Null => false,
        Value::Boolean(b) => b,
        Value::Integer32(n) => n != 0,
        Value::Float64(x) => number_to_boolean(x),
        Value::String(_) => length != 0,
        Value::Symbol(_) | Value::Object(_) | Value::Function(_) => true,
    }
}

pub fn is_undefined(v: Value) -> bool
    ensures { result ≡ is_undefined v }
{
    matches!(v, Value::Undefined)
}

// 7.2.3 IsCallable
pub fn is_callable(v: Value) -> bool
    ensures { result ≡ is_callable v }
{
    matches!(v, Value::Function(_))
}

pub fn object_of(v: Value) -> Option<u64>
    ensures { result ≡ (object_of v) }
{
    match v {
        Value::Object(o) | Value::Function(o) => Some(o),
        _ => None,
    }
}
