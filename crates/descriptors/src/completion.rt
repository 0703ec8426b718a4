// 6.2.6.6: a descriptor completed, and a property as a descriptor.
ghost use Rattle.std.specs.Prelude.{◌≡◌};
ghost use Rattle.property.specs.Descriptor.{complete, descriptor_of};
ghost use Rattle.property.specs.Fields.{or_else, value_field, writable_field, get_field, set_field};

use crate::{kind_fields, kinds};
use property::{DescriptorKind, Property, PropertyDescriptor};
use value::Value;

// A data property, with these in the place of fields that the descriptor lacks.
pub fn data_with(
    descriptor: PropertyDescriptor,
    value: Value,
    writable: bool,
    enumerable: bool,
    configurable: bool,
) -> Property
    ensures { result ≡ Property.Data (or_else (value_field descriptor.kind) value) (or_else (writable_field descriptor.kind) writable) (or_else descriptor.enumerable enumerable) (or_else descriptor.configurable configurable) }
{
    Property::Data(
        kind_fields::value_field(descriptor.kind).unwrap_or(value),
        kind_fields::writable_field(descriptor.kind).unwrap_or(writable),
        descriptor.enumerable.unwrap_or(enumerable),
        descriptor.configurable.unwrap_or(configurable),
    )
}

// An accessor property, likewise.
pub fn accessor_with(
    descriptor: PropertyDescriptor,
    get: Value,
    set: Value,
    enumerable: bool,
    configurable: bool,
) -> Property
    ensures { result ≡ Property.Accessor (or_else (get_field descriptor.kind) get) (or_else (set_field descriptor.kind) set) (or_else descriptor.enumerable enumerable) (or_else descriptor.configurable configurable) }
{
    Property::Accessor(
        kind_fields::get_field(descriptor.kind).unwrap_or(get),
        kind_fields::set_field(descriptor.kind).unwrap_or(set),
        descriptor.enumerable.unwrap_or(enumerable),
        descriptor.configurable.unwrap_or(configurable),
    )
}

// 6.2.6.6 CompletePropertyDescriptor ( Desc )
#[tactic(auto, unfolding(property::specs::Descriptor::complete))]
#[inline(always)]
pub fn complete_property_descriptor(descriptor: PropertyDescriptor) -> Property
    ensures { result ≡ complete descriptor }
{
    if kinds::is_accessor_descriptor(descriptor) {
        accessor_with(descriptor, Value::Undefined, Value::Undefined, false, false) // 3 to 5
    } else {
        data_with(descriptor, Value::Undefined, false, false, false) // 2, 4, 5
    }
}

// A property as the descriptor that has all the fields of its kind.
pub fn descriptor_of(property: Property) -> PropertyDescriptor
    ensures { result ≡ descriptor_of property }
{
    match property {
        Property::Data(value, writable, enumerable, configurable) => PropertyDescriptor {
            enumerable: Some(enumerable),
            configurable: Some(configurable),
            kind: DescriptorKind::Data(Some(value), Some(writable)),
        },
        Property::Accessor(get, set, enumerable, configurable) => PropertyDescriptor {
            enumerable: Some(enumerable),
            configurable: Some(configurable),
            kind: DescriptorKind::Accessor(Some(get), Some(set)),
        },
    }
}
