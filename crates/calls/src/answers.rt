// What each trap, getter and setter takes of the sheet. What cannot be read is refusal 9.
#![tactic(auto, using(crate::proofs::Steps::steps), unfolding(internal_methods::specs::Monad::ask, internal_methods::specs::Answers::ask_value, internal_methods::specs::Answers::as_value, internal_methods::specs::Answers::ask_boolean, internal_methods::specs::Answers::ask_prototype, internal_methods::specs::Answers::as_prototype, internal_methods::specs::Answers::ask_descriptor, internal_methods::specs::Answers::as_descriptor))]

ghost use Rattle.std.specs.Prelude.{◌≡◌, true};
ghost use Rattle.value.specs.Value.{to_boolean};
ghost use Rattle.text.specs.Strings.{length_of};
ghost use Rattle.text.specs.Table.{is_table, strings_of};
ghost use Rattle.internal_methods.specs.Answers.{ask_value, ask_boolean, ask_prototype, ask_descriptor};
ghost use Rattle.calls.specs.Outs.{out, state_of};

use crate::Progress;
use internal_methods::Failure;
use property::DescriptorObject;
use sheet::Answer;
use value::Value;

pub fn next_value(sheet: &[u8], progress: &mut Progress) -> Result<Value, Failure>
    ensures { out sheet.now result progress.new ≡ ask_value.run (state_of sheet.now progress.old) }
{
    let next = sheet::next_answer(sheet, progress.at, progress.left).ok_or(Failure::Refused(8))?;
    progress.pass(next.end);
    match next.answer {
        Answer::Value(v) => Ok(v),
        Answer::Descriptor(_) | Answer::Keys(_, _) => Err(Failure::Refused(9)),
        Answer::Throw(v) => Err(Failure::Thrown(v)),
    }
}

// 7.1.2 ToBoolean
#[tactic(auto, unfolding(text::specs::Answers::read_table, value::specs::Value::to_boolean))]
fn to_boolean(strings: &[u16], v: Value) -> bool
    requires { is_table strings.now ≡ true }
    ensures { result ≡ to_boolean (length_of (strings_of strings.now)) v }
{
    match v {
        Value::String(n) => text::length_of(strings, n) != 0,
        _ => value_operations::to_boolean(v, 0),
    }
}

// ToBoolean of the next answer
pub fn next_boolean(strings: &[u16], sheet: &[u8], progress: &mut Progress) -> Result<bool, Failure>
    requires { is_table strings.now ≡ true }
    ensures { out sheet.now result progress.new ≡ (ask_boolean (strings_of strings.now)).run (state_of sheet.now progress.old) }
{
    let v = next_value(sheet, progress)?;
    Ok(to_boolean(strings, v))
}

// 10.5.1 steps 7 and 8: an object or null
pub fn next_prototype(sheet: &[u8], progress: &mut Progress) -> Result<Value, Failure>
    ensures { out sheet.now result progress.new ≡ ask_prototype.run (state_of sheet.now progress.old) }
{
    let v = next_value(sheet, progress)?; // 7
    match v {
        Value::Null | Value::Object(_) | Value::Function(_) => Ok(v),
        _ => Err(Failure::TypeError(2)), // 8
    }
}

// 10.5.5 steps 7 and 8: a descriptor, or none for undefined
pub fn next_descriptor(
    sheet: &[u8],
    progress: &mut Progress,
) -> Result<Option<DescriptorObject>, Failure>
    ensures { out sheet.now result progress.new ≡ ask_descriptor.run (state_of sheet.now progress.old) }
{
    let next = sheet::next_answer(sheet, progress.at, progress.left).ok_or(Failure::Refused(8))?;
    progress.pass(next.end);
    match next.answer {
        Answer::Value(Value::Undefined) => Ok(None),
        Answer::Value(Value::Object(_) | Value::Function(_)) => Err(Failure::Refused(9)),
        Answer::Value(_) => Err(Failure::TypeError(7)), // 8
        Answer::Descriptor(d) => Ok(Some(d)),
        Answer::Keys(_, _) => Err(Failure::Refused(9)),
        Answer::Throw(v) => Err(Failure::Thrown(v)),
    }
}
