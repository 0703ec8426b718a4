// 10.5.11 steps 14 to 16: which of the target's keys count as configurable.
#![tactic(auto, using(crate::proofs::MarkLaws::sorted_start, crate::proofs::MarkLaws::sorted_failed, crate::proofs::MarkLaws::sorted_more, crate::proofs::MarkLaws::sorted_end))]

ghost use Rattle.std.specs.Prelude.{◌≡◌, map, ◌≤◌, length, take};
ghost use Rattle.store_read.specs.Answers.{key_from_word};
ghost use Rattle.internal_methods.specs.Proxy.{sorted};
ghost use Rattle.internal_methods.specs.Internal.{methods};
ghost use Rattle.calls.specs.Outs.{context_of, state_of};
ghost use Rattle.own_keys.specs.Marks.{out_marks};

use calls::{Progress, Run};
use internal_methods::Failure;
use own_property::target_checks;

// Marks each key by 1 if the target lacks it or has it configurable, and else by 0. An index, as a proof knows nothing of what a zip writes.
// (Numbers, since `rejected_marked` and its edits take them.)
pub fn mark_configurable(
    run: &Run<'_>,
    target: u64,
    keys: &[u64],
    marks: &mut [u64],
    depth: usize,
    progress: &mut Progress,
) -> Result<(), Failure>
    requires { length keys.now ≤ length marks.old }
    ensures { out_marks run.now.sheet.now keys.now (take (length keys.now) marks.new) result progress.new ≡ (sorted ((methods depth (context_of run.now)).get_own_property target) (map key_from_word keys.now)).run (state_of run.now.sheet.now progress.old) }
{
    for (i, &word) in keys.iter().enumerate() {
        let key = store_read::key_from_word(word);
        let desc = own_property::get_own_property(run, target, key, depth, progress)?; // 16.a
        marks[i] = u64::from(target_checks::absent_or_configurable(desc)); // 16.b, 16.c
    }
    Ok(())
}
