// What a step, the entering of a string and a page report.
#![tactic(auto)]

use property::Property;
use value::Value;

// The keys of a key list and the text of a page stand in the output; here is how many keys there are, and how many bytes.
#[derive(Clone, Copy)]
pub enum Completion {
    Value(Value),
    Descriptor(Property),
    Absent,
    Keys(u64),
    Page(u64),
}

#[derive(Clone, Copy)]
pub enum Outcome {
    Refused(u64),
    Result(Completion),
    TypeError(u64),
    Thrown(Value),
}

#[derive(Clone, Copy)]
pub struct Report {
    pub outcome: Outcome,
    pub answers: u64,
    pub calls: u64,
}
