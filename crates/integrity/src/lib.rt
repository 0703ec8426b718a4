// 7.3.15 SetIntegrityLevel and 7.3.16 TestIntegrityLevel: what seals and freezes an object, and tells whether it is.
// sealing: 7.3.15, key by key by way of turns. levels: 7.3.16.
#![tactic(auto)]

ghost use Rattle.std.specs.Prelude.{◌≡◌, true, ◌≤◌};
ghost use Rattle.text.specs.Table.{is_table};
ghost use Rattle.store.specs.Store.{maximum_properties};

use calls::Run;
use store_read::StoreWords;

mod levels;
mod sealing;
mod turns;

pub use levels::test_integrity_level;
pub use sealing::set_integrity_level;

// 7.3.15 and 7.3.16: the level that an object gets, or is asked for.
#[derive(Clone, Copy)]
pub enum IntegrityLevel {
    Sealed,
    Frozen,
}

// What methods read beside the store's words, which 7.3.15 writes as it goes.
#[derive(Clone, Copy)]
pub struct Inputs<'a> {
    pub strings: &'a [u16],
    pub allowance: usize,
    pub sheet: &'a [u8],
    pub ghost table: { is_table strings.now ≡ true },
    pub ghost limit: { allowance ≤ maximum_properties },
}

impl<'a> Inputs<'a> {
    // Over the words as they are now.
    fn over<'b>(&self, store: StoreWords<'b>) -> Run<'b>
    where
        'a: 'b,
        ensures words { result.store.words.now ≡ store.entry.words.now }
        ensures strings { result.strings.now ≡ self.now.strings.now }
        ensures allowance { result.allowance ≡ self.now.allowance }
        ensures sheet { result.sheet.now ≡ self.now.sheet.now }
    {
        Run {
            store,
            strings: self.strings,
            allowance: self.allowance,
            sheet: self.sheet,
        }
    }
}
