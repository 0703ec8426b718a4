// Byte records: values, descriptors, steps and answer sheets.
#![tactic(auto)]

use property::DescriptorObject;
use value::Value;

#[derive(Clone, Copy)]
pub struct Step {
    pub code: u64,
    pub object: u64,
    pub key: Value,
    pub value: Value,
    pub receiver: Value,
    pub descriptor: DescriptorObject,
}

// Which objects are live and which are callable, bit o for object o, and how many strings there are.
#[derive(Clone, Copy)]
pub struct Counts {
    pub live: u64,
    pub strings: u64,
    pub callable: u64,
}
