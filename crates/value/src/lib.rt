// ECMAScript language values and property keys. Strings, symbols, objects and functions are numbers.
#![tactic(auto)]

#[derive(Clone, Copy)]
pub enum Value {
    Undefined,
    Null,
    Boolean(bool),
    Integer32(i32),
    Float64(f64),
    String(u64),
    Symbol(u64),
    Object(u64),
    Function(u64),
}

#[derive(Clone, Copy)]
pub enum PropertyKey {
    String(u64),
    Symbol(u64),
}

// A value as two numbers.
#[derive(Clone, Copy)]
pub struct Words {
    pub kind: u64,
    pub payload: u64,
}
