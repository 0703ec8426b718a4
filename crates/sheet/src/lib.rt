// Answer sheets as byte records.
// answers: where an answer ends, and the next one from a place on.
#![tactic(auto)]

use property::DescriptorObject;
use value::Value;

mod answers;

pub use answers::{answer_end, next_answer};

// An answer as it is read. A key list is its first place and its count.
#[derive(Clone, Copy)]
pub enum Answer {
    Value(Value),
    Descriptor(DescriptorObject),
    Keys(usize, usize),
    Throw(Value),
}

// The next answer of a sheet, and the place of the one after it.
#[derive(Clone, Copy)]
pub struct NextAnswer {
    pub answer: Answer,
    pub end: usize,
}
