// A value in 9 bytes: a kind, then its payload.
ghost use Rattle.std.specs.Prelude.{◌≡◌, suc, ◌+◌, ◌≤◌, length};
ghost use Rattle.record.specs.Bytes.{byte_at, number_at, are_zero, value_at, is_value_at, is_part_at, value_bytes};
ghost use Rattle.std.proofs.lemmas.List.Edits.{sets};

use crate::numbers::word_at;
use value::{Value, Words};
use value_operations::encoding;

#[tactic(auto, unfolding(record::specs::Bytes::value_at))]
pub fn value_at(bytes: &[u8], at: usize) -> Value
    requires { at + 9 ≤ length bytes.now }
    ensures { result ≡ value_at bytes.now at }
{
    encoding::value_of(u64::from(bytes[at]), word_at(bytes, at + 1))
}

#[tactic(auto, unfolding(record::specs::Bytes::is_value_at))]
pub fn is_value_at(bytes: &[u8], at: usize) -> bool
    requires { at + 9 ≤ length bytes.now }
    ensures { result ≡ is_value_at bytes.now at }
{
    encoding::is_formed(u64::from(bytes[at]), word_at(bytes, at + 1))
}

// A value's kind and payload as they stand, well formed or not.
pub fn words_at(bytes: &[u8], at: usize) -> Words
    requires { at + 9 ≤ length bytes.now }
    ensures { (result.kind ≡ byte_at bytes.now at) × (result.payload ≡ number_at bytes.now (suc at) 8) }
{
    Words {
        kind: u64::from(bytes[at]),
        payload: word_at(bytes, at + 1),
    }
}

// Whether the 9 bytes of a value are zero.
#[tactic(auto, using(crate::proofs::ByteLaws::zero_value))]
pub fn is_zero_at(bytes: &[u8], at: usize) -> bool
    requires { at + 9 ≤ length bytes.now }
    ensures { result ≡ are_zero bytes.now at 9 }
{
    bytes[at] == 0 && word_at(bytes, at + 1) == 0
}

// A part that is used holds a value, and one that is not is zero.
#[tactic(auto, unfolding(record::specs::Bytes::is_part_at))]
pub fn is_part_at(used: bool, bytes: &[u8], at: usize) -> bool
    requires { at + 9 ≤ length bytes.now }
    ensures { result ≡ is_part_at used bytes.now at }
{
    if used {
        is_value_at(bytes, at)
    } else {
        is_zero_at(bytes, at)
    }
}

// The 9 bytes of v from `at` on; all others stay.
pub fn put_value(out: &mut [u8], at: usize, v: Value)
    requires { at + 9 ≤ length out.old }
    ensures { out.new ≡ sets out.old at (value_bytes v) }
{
    let Words { kind, payload } = encoding::words_of(v);
    out[at] = kind as u8;
    out[at + 1..at + 9].copy_from_slice(&payload.to_le_bytes());
}
