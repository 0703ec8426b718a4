// SameValue, and what it compares: the language type, the Number and the identity of a value.
ghost use Rattle.std.specs.Prelude.{◌≡◌};
ghost use Rattle.value.specs.Value.{same_number, same_value, number_of, id_of};

use value::Value;

// 6.1.6.1.14 Number::sameValue
fn same_number(x: f64, y: f64) -> bool
    ensures { result ≡ same_number x y }
{
    if x.is_nan() {
        return y.is_nan();
    }
    !y.is_nan() && x.to_bits() == y.to_bits()
}

fn number_of(v: Value) -> f64
    ensures { result ≡ number_of v }
{
    match v {
        Value::Integer32(n) => f64::from(n),
        Value::Float64(x) => x,
        _ => 0.0,
    }
}

fn id_of(v: Value) -> u64
    ensures { result ≡ id_of v }
{
    match v {
        Value::Undefined | Value::Null | Value::Integer32(_) | Value::Float64(_) => 0,
        Value::Boolean(b) => u64::from(b),
        Value::String(n) | Value::Symbol(n) | Value::Object(n) | Value::Function(n) => n,
    }
}

// 7.2.11 SameValue
#[inline(always)]
pub fn same_value(a: Value, b: Value) -> bool
    ensures { result ≡ same_value a b }
{
    let kind = crate::type_of(a);
    if kind != crate::type_of(b) {
        return false;
    }
    if kind == 3 {
        return same_number(number_of(a), number_of(b));
    }
    id_of(a) == id_of(b)
}
