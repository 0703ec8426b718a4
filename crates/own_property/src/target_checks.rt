// What 10.5 asks of the property that a proxy's target has.
ghost use Rattle.std.specs.Prelude.{◌≡◌};
ghost use Rattle.internal_methods.specs.Proxy.{absent_or_configurable, is_writable, is_read_only, fixes_other, lacks_getter, lacks_setter};

use descriptors::attributes;
use property::Property;
use value::Value;
use value_operations::{equality, is_undefined};

pub fn absent_or_configurable(target: Option<Property>) -> bool
    ensures { result ≡ absent_or_configurable target }
{
    match target {
        None => true,
        Some(p) => attributes::is_configurable(p),
    }
}

pub fn is_writable(target: Option<Property>) -> bool
    ensures { result ≡ is_writable target }
{
    match target {
        Some(Property::Data(_, writable, _, _)) => writable,
        _ => false,
    }
}

// A data property that is not writable.
pub fn is_read_only(p: Property) -> bool
    ensures { result ≡ is_read_only p }
{
    match p {
        Property::Data(_, writable, _, _) => !writable,
        Property::Accessor(_, _, _, _) => false,
    }
}

// 10.5.8 step 9.a and 10.5.9 step 10.a: the target's property fixes another value.
#[inline(always)]
pub fn fixes_other(target: Option<Property>, v: Value) -> bool
    ensures { result ≡ fixes_other target v }
{
    match target {
        Some(Property::Data(w, writable, _, configurable)) => {
            !configurable && !writable && !equality::same_value(v, w)
        }
        _ => false,
    }
}

// 10.5.8 step 9.b: there is no getter, and a value is given.
pub fn lacks_getter(target: Option<Property>, v: Value) -> bool
    ensures { result ≡ lacks_getter target v }
{
    match target {
        Some(Property::Accessor(get, _, _, configurable)) => {
            !configurable && is_undefined(get) && !is_undefined(v)
        }
        _ => false,
    }
}

// 10.5.9 step 10.b: there is no setter.
pub fn lacks_setter(target: Option<Property>) -> bool
    ensures { result ≡ lacks_setter target }
{
    match target {
        Some(Property::Accessor(_, set, _, configurable)) => { !configurable && is_undefined(set) }
        _ => false,
    }
}
