// How a call of an internal method can end other than in a result.
#![tactic(auto)]

use value::Value;

// Refusals and messages are numbers here and in `Outcome`: the demands, the table of texts and the report for C tell them by number.
#[derive(Clone, Copy)]
pub enum Failure {
    Refused(u64),
    TypeError(u64),
    Thrown(Value),
}
