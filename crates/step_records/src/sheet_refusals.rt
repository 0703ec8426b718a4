// Refusals 1 to 3 over the answer sheet, in one walk.
// They are numbers, 4 where all three pass. What an answer holds says where the next one begins, so the walk counts `at` by itself.
ghost use Rattle.std.specs.Prelude.{◌≡◌, ◌+◌, ◌*◌, ◌≤◌, length};
ghost use Rattle.record.specs.Sheet.{key_count_at, answer_end};
ghost use Rattle.step_records.specs.Refusals.{values_refusal, keys_refusal, answer_refusal, sheet_refusal};

use crate::value_refusals::{descriptor_refusal, value_refusal};
use byte_records::{numbers, value_record};
use record::Counts;

// Of n values.
#[tactic(auto, using(crate::proofs::SheetLaws::values_ends))]
fn values_refusal(counts: Counts, bytes: &[u8], at: usize, n: usize) -> u64
    requires { at + 9 * n ≤ length bytes.now }
    ensures { result ≡ values_refusal counts bytes.now at n }
{
    let mut found = 4;
    for i in 0..n {
        let value = value_record::words_at(bytes, at + 9 * i);
        found = found.min(value_refusal(counts, value));
    }
    found
}

#[tactic(auto, unfolding(crate::specs::Refusals::keys_refusal, crate::specs::Refusals::values_refusal))]
fn keys_refusal(counts: Counts, bytes: &[u8], at: usize) -> u64
    requires { at + 3 + 9 * key_count_at bytes.now at ≤ length bytes.now }
    ensures { result ≡ keys_refusal counts bytes.now at }
{
    let n = numbers::short_at(bytes, at + 1) as usize;
    if n <= 256 {
        values_refusal(counts, bytes, at + 3, n)
    } else {
        1
    }
}

// Of an answer that is within the sheet.
#[tactic(auto, unfolding(crate::specs::Refusals::answer_refusal, crate::specs::Refusals::keys_refusal, crate::specs::Refusals::descriptor_refusal, crate::specs::Refusals::value_refusal, record::specs::Sheet::answer_at, record::specs::Sheet::answer_end, record::specs::Bytes::is_value_at, record::specs::Bytes::value_at))]
fn answer_refusal(counts: Counts, bytes: &[u8], at: usize) -> u64
    requires { answer_end bytes.now at ≤ length bytes.now }
    ensures { result ≡ answer_refusal counts bytes.now at }
{
    match bytes[at] {
        1 | 4 => value_refusal(counts, value_record::words_at(bytes, at + 1)),
        2 => descriptor_refusal(counts, bytes, at + 1),
        3 => keys_refusal(counts, bytes, at),
        _ => 1,
    }
}

#[tactic(auto, using(crate::proofs::SheetLaws::sheet_ends))]
pub fn sheet_refusal(counts: Counts, bytes: &[u8]) -> u64
    ensures { result ≡ sheet_refusal counts bytes.now }
{
    let Some(&count) = bytes.first() else {
        return 1;
    };
    if 64 < count {
        return 1;
    }
    let mut at = 1;
    let mut found = 4;
    for _ in 0..count {
        let Some(end) = sheet::answer_end(bytes, at) else {
            return 1;
        };
        found = found.min(answer_refusal(counts, bytes, at));
        at = end;
    }
    if at == bytes.len() { found } else { 1 }
}
