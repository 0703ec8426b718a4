// The TypeErrors of 10.5.11 steps 9 and 17 to 22, over a list of the sheet.
#![tactic(auto)]

ghost use Rattle.std.specs.Prelude.{◌≡◌, [], ◌≤◌, length};
ghost use Rattle.internal_methods.specs.KeyList.{duplicate, rejected};
ghost use Rattle.key_lists.specs.KeyWords.{sorted_from};
ghost use Rattle.own_keys.specs.Lists.{answered_keys, LoadableAt};
ghost use Rattle.own_keys.specs.Messages.{thrown};

use crate::loading::Answered;
use internal_methods::Failure;
use key_lists::{duplicates, key_bytes, target_keys};

// A TypeError, if there is a message.
fn thrown(message: Option<u64>) -> Result<(), Failure>
    ensures { result ≡ thrown message }
{
    match message {
        None => Ok(()),
        Some(n) => Err(Failure::TypeError(n)),
    }
}

// 10.5.11 step 9
pub fn throw_if_duplicate(sheet: &[u8], answered: Answered, list: &mut [u64]) -> Result<(), Failure>
    requires loadable { LoadableAt sheet.now answered }
    requires room { 256 ≤ length list.old }
    ensures { result ≡ thrown (duplicate [] (answered_keys sheet.now answered)) }
{
    key_bytes::load_keys(sheet, answered.first, answered.count, list);
    thrown(duplicates::duplicate_message(&list[..answered.count]))
}

// 10.5.11 steps 17 to 22, of the target's keys and their marks
pub fn throw_if_rejected(
    sheet: &[u8],
    answered: Answered,
    extensible: bool,
    keys: &[u64],
    marks: &[u64],
    list: &mut [u64],
) -> Result<(), Failure>
    requires loadable { LoadableAt sheet.now answered }
    requires room { 256 ≤ length list.old }
    requires few { length keys.now ≤ 256 }
    requires marked { length marks.now ≡ length keys.now }
    ensures { result ≡ thrown (rejected extensible (sorted_from keys.now marks.now) (answered_keys sheet.now answered)) }
{
    key_bytes::load_keys(sheet, answered.first, answered.count, list);
    let list = &mut list[..answered.count];
    thrown(target_keys::rejected_marked(extensible, keys, marks, list))
}
