// 10.5.6 step 15: what [[DefineOwnProperty]] with a trap asks of the target's property.
ghost use Rattle.std.specs.Prelude.{◌≡◌, not, ◌&&◌};
ghost use Rattle.property.specs.Fields.{is_false, writable_field, configurable};
ghost use Rattle.internal_methods.specs.Proxy.{is_writable};

use descriptors::{attributes, fields, kind_fields};
use own_property::target_checks;
use property::{Property, PropertyDescriptor};

// 15.b: what is configurable is set to be so no more.
pub fn fixes_configurable(d: PropertyDescriptor, target: Property) -> bool
    ensures { result ≡ (is_false d.configurable && configurable target) }
{
    fields::is_false(d.configurable) && attributes::is_configurable(target)
}

// 15.c: what is writable and not configurable is set to be writable no more.
pub fn fixes_writable(d: PropertyDescriptor, target: Property) -> bool
    ensures { result ≡ (not (configurable target) && (is_writable (Some target) && is_false (writable_field d.kind))) }
{
    !attributes::is_configurable(target)
        && target_checks::is_writable(Some(target))
        && fields::is_false(kind_fields::writable_field(d.kind))
}
