// A list of keys is told by where its keys stand, so that a call needs no buffer of its own; they are loaded where they are looked at.
ghost use Rattle.std.specs.Prelude.{◌≤◌, length};
ghost use Rattle.text.specs.Table.{strings_of};
ghost use Rattle.store.specs.Words.{store_of};
ghost use Rattle.store_read.specs.Answers.{Listed};
ghost use Rattle.own_keys.specs.Loading.{listed_keys, Loadable};

use calls::Run;
use key_lists::key_bytes;

// The list that a trap answered: where its first key stands on the sheet, and how many there are.
#[derive(Clone, Copy)]
pub struct Answered {
    pub first: usize,
    pub count: usize,
}

// Keys of the sheet, or those of an ordinary object.
#[derive(Clone, Copy)]
pub enum KeyList {
    Answered(Answered),
    Own(u64),
}

// The words of the list's keys; those after them stay.
// (How many there are is answered, and no part of `out`, since those after them are spoken of too.)
#[tactic(auto, using(crate::proofs::OwnLaws::own_listed_few))]
pub fn load_list(run: &Run<'_>, list: KeyList, out: &mut [u64]) -> usize
    requires { Loadable run.now.sheet.now list × (256 ≤ length out.old) }
    ensures listed { Listed out.old out.new result (listed_keys run.now.sheet.now (strings_of run.now.strings.now) (store_of run.now.store.words.now) list) }
    ensures upper_bound { result ≤ 256 }
{
    match list {
        KeyList::Answered(answered) => {
            key_bytes::load_keys(run.sheet, answered.first, answered.count, out);
            answered.count
        }
        KeyList::Own(o) => run.store.list_own_keys(run.strings, o, out),
    }
}
