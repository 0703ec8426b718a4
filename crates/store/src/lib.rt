// Objects and their properties.
#![tactic(auto)]

use property::Property;
use value::{PropertyKey, Value};

// The prototype is null or an object.
#[derive(Clone, Copy)]
pub struct OrdinaryObject {
    pub prototype: Value,
    pub extensible: bool,
}

// Bit i of the traps belongs to step code 4 + i. A revoked proxy keeps its target's number.
#[derive(Clone, Copy)]
pub struct ProxyObject {
    pub target: u64,
    pub traps: u64,
    pub revoked: bool,
}

#[derive(Clone, Copy)]
pub enum Object {
    Ordinary(OrdinaryObject),
    Proxy(ProxyObject),
}

#[derive(Clone, Copy)]
pub struct Entry {
    pub owner: u64,
    pub key: PropertyKey,
    pub property: Property,
}
