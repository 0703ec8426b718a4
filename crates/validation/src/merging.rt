// A descriptor as a property, and the merging of two.
ghost use Rattle.std.specs.Prelude.{◌≡◌};
ghost use Rattle.property.specs.Validate.{property_of, unmergeable};
ghost use Rattle.property.specs.Answers.{fill_with};

use crate::applying;
use descriptors::kinds;
use property::{DescriptorKind, Property, PropertyDescriptor};

// The property that a descriptor is, if it has all the fields that its kind needs.
#[tactic(auto, unfolding(property::specs::Validate::property_of))]
pub fn property_of(descriptor: PropertyDescriptor) -> Option<Property>
    ensures { result ≡ property_of descriptor }
{
    match descriptor.kind {
        DescriptorKind::Data(value, writable) => Some(Property::Data(
            value?,
            writable?,
            descriptor.enumerable?,
            descriptor.configurable?,
        )),
        DescriptorKind::Accessor(get, set) => Some(Property::Accessor(
            get?,
            set?,
            descriptor.enumerable?,
            descriptor.configurable?,
        )),
        DescriptorKind::Generic => None,
    }
}

fn is_unmergeable(current: Property, descriptor: PropertyDescriptor) -> bool
    ensures { result ≡ unmergeable current descriptor }
{
    match current {
        Property::Data(_, _, _, _) => kinds::is_accessor_descriptor(descriptor),
        Property::Accessor(_, _, _, _) => kinds::is_data_descriptor(descriptor),
    }
}

// boa's fill_with, which panics where the two cannot be merged.
#[tactic(auto, unfolding(property::specs::Answers::fill_with))]
pub fn fill_with(current: Property, descriptor: PropertyDescriptor) -> Option<Property>
    ensures { result ≡ fill_with current descriptor }
{
    if is_unmergeable(current, descriptor) {
        return None;
    }
    Some(applying::applied(descriptor, current))
}
