// 6.2.6.5: the tests of an object that is to be a descriptor.
ghost use Rattle.std.specs.Prelude.{◌≡◌};
ghost use Rattle.property.specs.Descriptor.{is_uncallable, is_mixed};
ghost use Rattle.property.specs.Answers.{conversion_message};

use property::DescriptorObject;
use value::Value;

// 6.2.6.5, 12.b and 14.b: the field is neither callable nor undefined
pub fn is_uncallable(field: Option<Value>) -> bool
    ensures { result ≡ is_uncallable field }
{
    field.is_some_and(|v| !value_operations::is_callable(v) && !value_operations::is_undefined(v))
}

// 6.2.6.5, 15
pub fn is_mixed(object: DescriptorObject) -> bool
    ensures { result ≡ is_mixed object }
{
    (object.get.is_some() || object.set.is_some())
        && (object.value.is_some() || object.writable.is_some())
}

// The number of the TypeError that 6.2.6.5 throws, if it throws one.
// (By number, as `Failure::TypeError` has it.)
#[tactic(auto, unfolding(property::specs::Answers::conversion_message))]
pub fn descriptor_message(object: DescriptorObject) -> Option<u64>
    ensures { result ≡ conversion_message object }
{
    if is_uncallable(object.get) {
        Some(27) // 12.b
    } else if is_uncallable(object.set) {
        Some(28) // 14.b
    } else if is_mixed(object) {
        Some(29) // 15
    } else {
        None
    }
}
