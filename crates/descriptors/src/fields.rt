// The tests of a descriptor's field, which is present or absent.
ghost use Rattle.std.specs.Prelude.{◌≡◌};
ghost use Rattle.property.specs.Fields.{is_true, is_false, unlike, unlike_flag};

use value::Value;
use value_operations::equality;

// "has a .. field and it is true"
pub fn is_true(field: Option<bool>) -> bool
    ensures { result ≡ is_true field }
{
    field.unwrap_or(false)
}

// "has a .. field and it is false"
pub fn is_false(field: Option<bool>) -> bool
    ensures { result ≡ is_false field }
{
    !field.unwrap_or(true)
}

// "has a .. field and it is not the same"
pub fn is_unlike(field: Option<Value>, value: Value) -> bool
    ensures { result ≡ unlike field value }
{
    field.is_some_and(|v| !equality::same_value(v, value))
}

// The same of a boolean field.
// (Two functions, since flags are alike by `==` and values by SameValue; one over both would take that as a parameter.)
pub fn is_unlike_flag(field: Option<bool>, flag: bool) -> bool
    ensures { result ≡ unlike_flag field flag }
{
    field.is_some_and(|b| b != flag)
}
