// A value as its words, a kind and a payload, and back: the value record of docs/REFERENCE.md.
// Each conversion is a function with its equation; `From` beside them would state the same again, and not every kind and payload are a value's.
ghost use Rattle.std.specs.Prelude.{◌≡◌, true, ◌<◌, ◌^◌};
ghost use Rattle.std.specs.Float.{binary64};
ghost use Rattle.std.specs.Float.Ieee.{of_bits, to_bits, nan_bits};
ghost use Rattle.std.specs.Int.{w32};
ghost use Rattle.std.proofs.Common.{to_z, of_z};
ghost use Rattle.value.specs.Words.{kind_of, payload_of, value_of, is_formed};

use value::{Value, Words};

fn int_of(n: u64) -> i32
    requires { n < 2 ^ 32 }
    ensures { result ≡ to_z w32 n }
{
    (n as u32).cast_signed()
}

fn int_word(n: i32) -> u64
    ensures { (result ≡ of_z w32 n) × ((to_z w32 result ≡ n) × (result < 2 ^ 32)) }
{
    u64::from(n.cast_unsigned())
}

fn is_nan_word(n: u64) -> bool
    ensures { result ≡ nan_bits binary64 n }
{
    0x7ff0_0000_0000_0000 < n % 0x8000_0000_0000_0000
}

fn float_of(n: u64) -> f64
    ensures { result ≡ of_bits binary64 n }
{
    if is_nan_word(n) {
        f64::NAN
    } else {
        f64::from_bits(n)
    }
}

// Every NaN is written as one.
fn float_word(x: f64) -> u64
    ensures { (result ≡ to_bits binary64 x) × (of_bits binary64 result ≡ x) }
{
    if x.is_nan() {
        0x7ff8_0000_0000_0000
    } else {
        x.to_bits()
    }
}

#[tactic(auto, unfolding(value::specs::Words::value_of))]
pub fn value_of(kind: u64, payload: u64) -> Value
    ensures { result ≡ value_of kind payload }
{
    match kind {
        1 => Value::Null,
        2 => Value::Boolean(payload != 0),
        3 if payload < 1 << 32 => Value::Integer32(int_of(payload)),
        4 => Value::Float64(float_of(payload)),
        5 => Value::String(payload),
        6 => Value::Symbol(payload),
        7 => Value::Object(payload),
        8 => Value::Function(payload),
        _ => Value::Undefined,
    }
}

// What is read back is the value, and its words are well formed.
#[tactic(auto, unfolding(value::specs::Words::payload_of, value::specs::Words::value_of, value::specs::Words::is_formed))]
pub fn words_of(v: Value) -> Words
    ensures { (result.kind ≡ kind_of v) × ((result.payload ≡ payload_of v) × ((value_of result.kind result.payload ≡ v) × ((result.kind < 9) × (is_formed result.kind result.payload ≡ true)))) }
{
    match v {
        Value::Undefined => Words {
            kind: 0,
            payload: 0,
        },
        Value::Null => Words {
            kind: 1,
            payload: 0,
        },
        Value::Boolean(b) => Words {
            kind: 2,
            payload: u64::from(b),
        },
        Value::Integer32(n) => Words {
            kind: 3,
            payload: int_word(n),
        },
        Value::Float64(x) => Words {
            kind: 4,
            payload: float_word(x),
        },
        Value::String(s) => Words {
            kind: 5,
            payload: s,
        },
        Value::Symbol(s) => Words {
            kind: 6,
            payload: s,
        },
        Value::Object(o) => Words {
            kind: 7,
            payload: o,
        },
        Value::Function(f) => Words {
            kind: 8,
            payload: f,
        },
    }
}

// Whether the words are a value's, each part that the kind does not use being 0.
#[tactic(auto, unfolding(value::specs::Words::is_formed))]
pub fn is_formed(kind: u64, payload: u64) -> bool
    ensures { result ≡ is_formed kind payload }
{
    match kind {
        0 | 1 => payload == 0,
        2 => payload < 2,
        3 => payload < 1 << 32,
        _ => kind < 9,
    }
}
