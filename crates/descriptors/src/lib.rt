// 6.2.6.4 and 6.2.6.5: a descriptor to and from an object.
// kinds: 6.2.6.1 to 6.2.6.3. errors: what 6.2.6.5 throws for. completion: 6.2.6.6.
// fields: the tests of a field. kind_fields: the fields of one kind. attributes: those of a property.
#![tactic(auto)]

ghost use Rattle.std.specs.Prelude.{◌≡◌};
ghost use Rattle.property.specs.Descriptor.{from_property_descriptor, kind_of, to_property_descriptor};

use property::{DescriptorKind, DescriptorObject, PropertyDescriptor};
use value::Value;

pub mod attributes;
pub mod completion;
pub mod errors;
pub mod fields;
pub mod kind_fields;
pub mod kinds;

// 6.2.6.4 FromPropertyDescriptor ( Desc )
pub fn from_property_descriptor(descriptor: PropertyDescriptor) -> DescriptorObject
    ensures { result ≡ from_property_descriptor descriptor }
{
    DescriptorObject {
        enumerable: descriptor.enumerable,
        configurable: descriptor.configurable,
        writable: kind_fields::writable_field(descriptor.kind),
        value: kind_fields::value_field(descriptor.kind),
        get: kind_fields::get_field(descriptor.kind),
        set: kind_fields::set_field(descriptor.kind),
    }
}

fn kind_of(
    value: Option<Value>,
    writable: Option<bool>,
    get: Option<Value>,
    set: Option<Value>,
) -> DescriptorKind
    ensures { result ≡ kind_of value writable get set }
{
    if get.is_some() || set.is_some() {
        DescriptorKind::Accessor(get, set)
    } else if value.is_some() || writable.is_some() {
        DescriptorKind::Data(value, writable)
    } else {
        DescriptorKind::Generic
    }
}

// 6.2.6.5 ToPropertyDescriptor ( Obj ), step 16
#[tactic(auto, unfolding(property::specs::Descriptor::to_property_descriptor))]
pub fn to_property_descriptor(object: DescriptorObject) -> PropertyDescriptor
    ensures { result ≡ to_property_descriptor object }
{
    PropertyDescriptor {
        enumerable: object.enumerable,
        configurable: object.configurable,
        kind: kind_of(object.value, object.writable, object.get, object.set),
    }
}
