// The cells of a text line: where they stand, and the bytes that they are.
// hexadecimal: digits as bytes, bytes as code units. cells: where a line's cells stand. names: the columns of the first line.
// parts: the 58 bytes of a step from a line's cells.
#![tactic(auto)]

pub mod cells;
pub mod hexadecimal;
pub mod names;
pub mod parts;
