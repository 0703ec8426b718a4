// 10.5.11 steps 7 and 8: the key list that a trap answers.
#![tactic(auto, using(calls::proofs::Steps::steps, crate::proofs::ListLaws::listed_keys, crate::proofs::ListLaws::listed_others, crate::proofs::ListLaws::loadable), unfolding(internal_methods::specs::Monad::ask, internal_methods::specs::Answers::ask_keys, internal_methods::specs::Answers::as_keys))]

ghost use Rattle.std.specs.Prelude.{◌≡◌, true, IfOk};
ghost use Rattle.internal_methods.specs.Answers.{ask_keys};
ghost use Rattle.sheet.specs.Next.{answers_from};
ghost use Rattle.calls.specs.Outs.{state_of};
ghost use Rattle.own_keys.specs.Lists.{are_lists_fit, LoadableAt, out_answered};

use crate::loading::Answered;
use calls::Progress;
use internal_methods::Failure;
use key_lists::key_bytes;
use sheet::Answer;
use value::Value;

pub fn next_keys(sheet: &[u8], progress: &mut Progress) -> Result<Answered, Failure>
    requires { are_lists_fit (answers_from sheet.now progress.old.at progress.old.left) ≡ true }
    ensures result_value { out_answered sheet.now result progress.new ≡ ask_keys.run (state_of sheet.now progress.old) }
    ensures loadable { IfOk result (λ answered. LoadableAt sheet.now answered) }
{
    let next = sheet::next_answer(sheet, progress.at, progress.left).ok_or(Failure::Refused(8))?;
    progress.pass(next.end);
    match next.answer {
        Answer::Value(Value::Object(_) | Value::Function(_)) => Err(Failure::Refused(9)),
        Answer::Value(_) => Err(Failure::TypeError(31)), // 8
        Answer::Descriptor(_) => Err(Failure::Refused(9)),
        Answer::Keys(first, count) => {
            if key_bytes::are_keys(sheet, first, count) {
                Ok(Answered { first, count })
            } else {
                Err(Failure::TypeError(30)) // 8
            }
        }
        Answer::Throw(v) => Err(Failure::Thrown(v)),
    }
}
