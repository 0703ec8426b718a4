// 10.1.6.3, step 6: what a descriptor makes of a property.
ghost use Rattle.std.specs.Prelude.{◌≡◌};
ghost use Rattle.property.specs.Validate.{applied};

use descriptors::{completion, kinds};
use property::{Property, PropertyDescriptor};
use value::Value;

// Step 6: what the descriptor makes of the property.
#[tactic(auto, unfolding(property::specs::Validate::applied))]
pub fn applied(descriptor: PropertyDescriptor, current: Property) -> Property
    ensures { result ≡ applied descriptor current }
{
    match current {
        Property::Data(value, writable, enumerable, configurable) => {
            if kinds::is_accessor_descriptor(descriptor) {
                completion::accessor_with(
                    descriptor,
                    Value::Undefined,
                    Value::Undefined,
                    enumerable,
                    configurable,
                ) // 6.a
            } else {
                completion::data_with(descriptor, value, writable, enumerable, configurable) // 6.c
            }
        }
        Property::Accessor(get, set, enumerable, configurable) => {
            if kinds::is_data_descriptor(descriptor) {
                completion::data_with(
                    descriptor,
                    Value::Undefined,
                    false,
                    enumerable,
                    configurable,
                ) // 6.b
            } else {
                completion::accessor_with(descriptor, get, set, enumerable, configurable) // 6.c
            }
        }
    }
}
