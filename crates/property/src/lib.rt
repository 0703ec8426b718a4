// Property descriptors, and the properties that they describe.
#![tactic(auto)]

use value::Value;

#[derive(Clone, Copy)]
pub enum DescriptorKind {
    Data(Option<Value>, Option<bool>),
    Accessor(Option<Value>, Option<Value>),
    Generic,
}

#[derive(Clone, Copy)]
pub struct PropertyDescriptor {
    pub enumerable: Option<bool>,
    pub configurable: Option<bool>,
    pub kind: DescriptorKind,
}

// The object that ToPropertyDescriptor reads; unlike a descriptor it may mix both kinds.
#[derive(Clone, Copy)]
pub struct DescriptorObject {
    pub enumerable: Option<bool>,
    pub configurable: Option<bool>,
    pub writable: Option<bool>,
    pub value: Option<Value>,
    pub get: Option<Value>,
    pub set: Option<Value>,
}

// A fully populated descriptor, which is what an object keeps.
// Data: value, writable, enumerable, configurable. Accessor: get, set, enumerable, configurable.
#[derive(Clone, Copy)]
pub enum Property {
    Data(Value, bool, bool, bool),
    Accessor(Value, Value, bool, bool),
}

// The tests of ValidateAndApplyPropertyDescriptor, in the order of 10.1.6.3.
#[derive(Clone, Copy)]
pub enum ValidationTest {
    Extensible,
    Configurable,
    Enumerable,
    Kind,
    Get,
    Set,
    Writable,
    Value,
}

// What ValidateAndApplyPropertyDescriptor answers: false and the first test that fails, or true and what becomes of the property.
#[derive(Clone, Copy)]
pub enum Validation {
    Rejected(ValidationTest),
    Unchanged,
    Becomes(Property),
}
