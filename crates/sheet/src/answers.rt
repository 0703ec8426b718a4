// An answer sheet: a count, then that many answers.
// Tags are numbers, as the bytes of a sheet have them; an answer is an enum from here on.
ghost use Rattle.std.specs.Prelude.{◌≡◌, ◌+◌, ◌*◌, ◌<◌, ◌≤◌, length};
ghost use Rattle.record.specs.Sheet.{key_count_at, answer_end};
ghost use Rattle.sheet.specs.Next.{end_within, Next};

use crate::{Answer, NextAnswer};
use byte_records::{descriptor_record, numbers, value_record};
use value::Value;

// Where `size` bytes from `at` on end.
fn end_after(bytes: &[u8], at: usize, size: usize) -> Option<usize>
    ensures { result ≡ end_within (length bytes.now) (at + size) }
{
    let end = at.checked_add(size)?;
    (end <= bytes.len()).then_some(end)
}

fn key_count_at(bytes: &[u8], at: usize) -> usize
    requires { at + 3 ≤ length bytes.now }
    ensures { (result ≡ key_count_at bytes.now at) × (result < 65536) }
{
    numbers::short_at(bytes, at + 1) as usize
}

fn keys_end(bytes: &[u8], at: usize) -> Option<usize>
    ensures { result ≡ end_within (length bytes.now) (at + 3 + 9 * key_count_at bytes.now at) }
{
    let keys = end_after(bytes, at, 3)?;
    end_after(bytes, keys, 9 * key_count_at(bytes, at))
}

#[tactic(auto, unfolding(record::specs::Sheet::answer_end))]
pub fn answer_end(bytes: &[u8], at: usize) -> Option<usize>
    ensures { result ≡ end_within (length bytes.now) (answer_end bytes.now at) }
{
    match *bytes.get(at)? {
        2 => end_after(bytes, at, 30),
        3 => keys_end(bytes, at),
        _ => end_after(bytes, at, 10),
    }
}

// The answer at `at`, if there are any to come. A sheet that is well formed has all of them.
#[tactic(auto, unfolding(record::specs::Sheet::answer_end, record::specs::Sheet::answer_at, crate::specs::Next::answers_from))]
pub fn next_answer(bytes: &[u8], at: usize, left: usize) -> Option<NextAnswer>
    ensures { Next bytes.now at left result }
{
    if left == 0 {
        return None;
    }
    let Some(end) = answer_end(bytes, at) else {
        let answer = Answer::Throw(Value::Undefined);
        return Some(NextAnswer { answer, end: at });
    };
    let answer = match bytes[at] {
        1 => Answer::Value(value_record::value_at(bytes, at + 1)),
        2 => Answer::Descriptor(descriptor_record::descriptor_at(bytes, at + 1)),
        3 => Answer::Keys(at + 3, key_count_at(bytes, at)),
        _ => Answer::Throw(value_record::value_at(bytes, at + 1)),
    };
    Some(NextAnswer { answer, end })
}
