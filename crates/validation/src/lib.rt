// 10.1.6.3 ValidateAndApplyPropertyDescriptor, and 10.1.6.2.
// applying: step 6. outcome: yes or no, the test that fails, and the property after it. merging: two descriptors into one.
#![tactic(auto)]

ghost use Rattle.std.specs.Prelude.{◌≡◌, cond, unwrap_or};
ghost use Rattle.property.specs.Fields.{configurable};
ghost use Rattle.property.specs.Validate.{has_no_fields, is_other_kind, validate_kind, validate_fixed, validate, is_compatible};

use descriptors::{attributes, completion, fields, kind_fields, kinds};
use property::{Property, PropertyDescriptor, Validation, ValidationTest};

mod applying;
pub mod merging;
pub mod outcome;

// Step 4.
fn has_no_fields(descriptor: PropertyDescriptor) -> bool
    ensures { result ≡ has_no_fields descriptor }
{
    if descriptor.enumerable.is_some() || descriptor.configurable.is_some() {
        return false;
    }
    kinds::is_generic_descriptor(descriptor)
}

// Step 5.c: the one is a data property, the other an accessor.
fn is_other_kind(descriptor: PropertyDescriptor, current: Property) -> bool
    ensures { result ≡ is_other_kind descriptor current }
{
    !kinds::is_generic_descriptor(descriptor)
        && kinds::is_accessor_descriptor(descriptor) != attributes::is_accessor(current)
}

// Steps 5.d and 5.e: the answer, if they come to one.
#[tactic(auto, unfolding(property::specs::Validate::reject_if))]
fn test_kind(descriptor: PropertyDescriptor, current: Property) -> Option<Validation>
    ensures { (next : Validation) → unwrap_or result next ≡ validate_kind descriptor current next }
{
    let kind = descriptor.kind;
    match current {
        Property::Accessor(get, set, _, _) => {
            if fields::is_unlike(kind_fields::get_field(kind), get) {
                return Some(Validation::Rejected(ValidationTest::Get)); // 5.d.i
            }
            if fields::is_unlike(kind_fields::set_field(kind), set) {
                return Some(Validation::Rejected(ValidationTest::Set)); // 5.d.ii
            }
        }
        Property::Data(_, true, _, _) => {}
        Property::Data(value, false, _, _) => {
            if fields::is_true(kind_fields::writable_field(kind)) {
                return Some(Validation::Rejected(ValidationTest::Writable)); // 5.e.i
            }
            let asked = kind_fields::value_field(kind);
            if fields::is_unlike(asked, value) {
                return Some(Validation::Rejected(ValidationTest::Value)); // 5.e.iii
            }
            if asked.is_some() {
                return Some(Validation::Unchanged); // 5.e.iii
            }
        }
    }
    None
}

// Steps 5.a to 5.e.
#[tactic(auto, unfolding(property::specs::Validate::reject_if))]
fn test_fixed(descriptor: PropertyDescriptor, current: Property) -> Option<Validation>
    ensures { (next : Validation) → unwrap_or result next ≡ validate_fixed descriptor current next }
{
    if fields::is_true(descriptor.configurable) {
        return Some(Validation::Rejected(ValidationTest::Configurable)); // 5.a
    }
    if fields::is_unlike_flag(descriptor.enumerable, attributes::is_enumerable(current)) {
        return Some(Validation::Rejected(ValidationTest::Enumerable)); // 5.b
    }
    if is_other_kind(descriptor, current) {
        return Some(Validation::Rejected(ValidationTest::Kind)); // 5.c
    }
    test_kind(descriptor, current) // 5.d, 5.e
}

// Step 5.
fn test_current(descriptor: PropertyDescriptor, current: Property) -> Option<Validation>
    ensures { (next : Validation) → unwrap_or result next ≡ cond (configurable current) next (validate_fixed descriptor current next) }
{
    if attributes::is_configurable(current) {
        return None;
    }
    test_fixed(descriptor, current)
}

// 10.1.6.3 ValidateAndApplyPropertyDescriptor ( O, P, extensible, Desc, current )
#[tactic(auto, unfolding(property::specs::Validate::validate, property::specs::Validate::reject_if))]
pub fn validate(
    extensible: bool,
    descriptor: PropertyDescriptor,
    current: Option<Property>,
) -> Validation
    ensures { result ≡ validate extensible descriptor current }
{
    let Some(property) = current else {
        if !extensible {
            return Validation::Rejected(ValidationTest::Extensible); // 2.a
        }
        return Validation::Becomes(completion::complete_property_descriptor(descriptor)); // 2.c to 2.e
    };
    if has_no_fields(descriptor) {
        return Validation::Unchanged; // 4
    }
    if let Some(validation) = test_current(descriptor, property) {
        return validation; // 5
    }
    Validation::Becomes(applying::applied(descriptor, property)) // 6, 7
}

// 10.1.6.2 IsCompatiblePropertyDescriptor ( Extensible, Desc, Current )
#[tactic(auto, unfolding(property::specs::Validate::is_compatible))]
#[inline(always)]
pub fn is_compatible_property_descriptor(
    extensible: bool,
    descriptor: PropertyDescriptor,
    current: Option<Property>,
) -> bool
    ensures { result ≡ is_compatible extensible descriptor current }
{
    outcome::is_accepted(validate(extensible, descriptor, current))
}
