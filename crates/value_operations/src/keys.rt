// Property keys and the values that they are.
ghost use Rattle.std.specs.Prelude.{◌≡◌};
ghost use Rattle.value.specs.PropertyKey.{key_value, key_of};

use value::{PropertyKey, Value};

pub fn key_value(k: PropertyKey) -> Value
    ensures { result ≡ key_value k }
{
    match k {
        PropertyKey::String(s) => Value::String(s),
        PropertyKey::Symbol(s) => Value::Symbol(s),
    }
}

pub fn key_of(v: Value) -> Option<PropertyKey>
    ensures { result ≡ (key_of v) }
{
    match v {
        Value::String(s) => Some(PropertyKey::String(s)),
        Value::Symbol(s) => Some(PropertyKey::Symbol(s)),
        _ => None,
    }
}
