// Lists of keys, each key in one word: what 10.5.11 asks of the list that a trap answers.
// key_bytes: keys between bytes and words. duplicates: step 9. target_keys: steps 17 to 22 over a lent slice of the
// target's key records, by way of checking.
// Messages are numbers, as `Failure::TypeError` has them. A list in a lent buffer goes with its count, since what follows it stays.
#![tactic(auto)]

mod checking;
pub mod duplicates;
pub mod key_bytes;
pub mod target_keys;
