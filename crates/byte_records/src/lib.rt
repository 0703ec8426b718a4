// Records in bytes, little-endian, read at a place, tested (refusal 1) and written.
// numbers: of 2 and 8 bytes, and code units. value_record: a value, 9 bytes. descriptor_record: a descriptor, 29 bytes.
#![tactic(auto)]

pub mod descriptor_record;
pub mod numbers;
pub mod value_record;
