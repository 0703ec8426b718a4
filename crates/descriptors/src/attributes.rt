// The attributes of a property.
ghost use Rattle.std.specs.Prelude.{◌≡◌};
ghost use Rattle.property.specs.Fields.{enumerable, configurable, is_accessor};

use property::Property;

pub fn is_enumerable(property: Property) -> bool
    ensures { result ≡ enumerable property }
{
    match property {
        Property::Data(_, _, e, _) | Property::Accessor(_, _, e, _) => e,
    }
}

pub fn is_configurable(property: Property) -> bool
    ensures { result ≡ configurable property }
{
    match property {
        Property::Data(_, _, _, c) | Property::Accessor(_, _, _, c) => c,
    }
}

pub fn is_accessor(property: Property) -> bool
    ensures { result ≡ is_accessor property }
{
    matches!(property, Property::Accessor(_, _, _, _))
}
