// A call of an internal method: what it reads, how it begins, and what it takes of the sheet.
// entry: it is counted, and goes to the methods of its object's kind. answers: what each trap, getter and setter takes of the sheet.
#![tactic(auto)]

ghost use Rattle.std.specs.Prelude.{◌≡◌, true};
ghost use Rattle.text.specs.Table.{is_table};

use store::ProxyObject;
use store_read::StoreWords;

pub mod answers;
mod entry;
mod progress;
mod written;

pub use entry::{enter, has_trap, ordinary_at};
pub use progress::Progress;
pub use written::Written;

// What the methods of a run read: the store, the string table's cells, how many properties the store may hold, and the answer sheet.
#[derive(Clone, Copy)]
pub struct Run<'a> {
    pub store: StoreWords<'a>,
    pub strings: &'a [u16],
    pub allowance: usize,
    pub sheet: &'a [u8],
    pub ghost table: { is_table strings.now ≡ true },
}

// Where a call arrives: the ordinary object, or the proxy with the trap, and how many calls deep methods may still go from there.
#[derive(Clone, Copy)]
pub enum Entered {
    Ordinary(u64, usize),
    Proxy(ProxyObject, usize),
}
