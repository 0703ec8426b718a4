// 6.2.6.1 to 6.2.6.3: which kind of descriptor it is.
ghost use Rattle.std.specs.Prelude.{◌≡◌};
ghost use Rattle.property.specs.Descriptor.{is_accessor_descriptor, is_data_descriptor, is_generic_descriptor};

use crate::kind_fields;
use property::PropertyDescriptor;

// 6.2.6.1 IsAccessorDescriptor ( Desc )
#[tactic(auto, unfolding(property::specs::Descriptor::is_accessor_descriptor))]
pub fn is_accessor_descriptor(descriptor: PropertyDescriptor) -> bool
    ensures { result ≡ is_accessor_descriptor descriptor }
{
    kind_fields::get_field(descriptor.kind).is_some() // 2
        || kind_fields::set_field(descriptor.kind).is_some() // 3
}

// 6.2.6.2 IsDataDescriptor ( Desc )
#[tactic(auto, unfolding(property::specs::Descriptor::is_data_descriptor))]
pub fn is_data_descriptor(descriptor: PropertyDescriptor) -> bool
    ensures { result ≡ is_data_descriptor descriptor }
{
    kind_fields::value_field(descriptor.kind).is_some() // 2
        || kind_fields::writable_field(descriptor.kind).is_some() // 3
}

// 6.2.6.3 IsGenericDescriptor ( Desc )
#[tactic(auto, unfolding(property::specs::Descriptor::is_generic_descriptor))]
pub fn is_generic_descriptor(descriptor: PropertyDescriptor) -> bool
    ensures { result ≡ is_generic_descriptor descriptor }
{
    !is_accessor_descriptor(descriptor) // 2
        && !is_data_descriptor(descriptor) // 3
}
