// The fields that only one kind of descriptor has.
ghost use Rattle.std.specs.Prelude.{◌≡◌};
ghost use Rattle.property.specs.Fields.{value_field, writable_field, get_field, set_field};

use property::DescriptorKind;
use value::Value;

pub fn value_field(kind: DescriptorKind) -> Option<Value>
    ensures { result ≡ value_field kind }
{
    match kind {
        DescriptorKind::Data(value, _) => value,
        _ => None,
    }
}

pub fn writable_field(kind: DescriptorKind) -> Option<bool>
    ensures { result ≡ writable_field kind }
{
    match kind {
        DescriptorKind::Data(_, writable) => writable,
        _ => None,
    }
}

pub fn get_field(kind: DescriptorKind) -> Option<Value>
    ensures { result ≡ get_field kind }
{
    match kind {
        DescriptorKind::Accessor(get, _) => get,
        _ => None,
    }
}

pub fn set_field(kind: DescriptorKind) -> Option<Value>
    ensures { result ≡ set_field kind }
{
    match kind {
        DescriptorKind::Accessor(_, set) => set,
        _ => None,
    }
}
