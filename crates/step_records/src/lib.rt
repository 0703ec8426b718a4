// The refusals over a call's records, in their order: 1 to 3, 14 and 4 over the step, then 1 to 3 over the sheet.
// step_refusals: 1 to 3 over the step, by its code. sheet_refusals: 1 to 3 over the sheet.
// value_refusals: 1 to 3 over a value and a descriptor in bytes. value_tests: 2 to 4 over a decoded descriptor.
#![tactic(auto)]

ghost use Rattle.std.specs.Prelude.{◌≡◌, true, ◌&&◌, eqb};
ghost use Rattle.text.specs.Table.{is_table};
ghost use Rattle.store.specs.Store.{lookup};
ghost use Rattle.store.specs.Release.{is_named};
ghost use Rattle.store.specs.Words.{store_of, world_of};
ghost use Rattle.record.specs.Step.{releases};
ghost use Rattle.record.specs.Tests.{first_failing};
ghost use Rattle.steps.specs.Step.{counts_of, is_proxy, record_tests};
ghost use Rattle.step_records.specs.Refusals.{refusal_of, step_refusal, release_refusal};

use record::Counts;
use store::Object;
use store_read::StoreWords;

pub mod sheet_refusals;
pub mod step_refusals;
pub mod value_refusals;
pub mod value_tests;

// 4 is none.
fn refusal_of(n: u64) -> Option<u64>
    ensures { result ≡ refusal_of n }
{
    (n < 4).then_some(n)
}

fn is_proxy(store: StoreWords<'_>, object: u64) -> bool
    ensures { result ≡ is_proxy (lookup (store_of store.entry.words.now) object) }
{
    matches!(store.object_at(object), Some(Object::Proxy(_)))
}

// Which objects are live and which are callable, and how many strings were entered.
#[tactic(auto, unfolding(text::specs::Answers::count_answer))]
pub fn counts_of(store: StoreWords<'_>, strings: &[u16]) -> Counts
    requires { is_table strings.now ≡ true }
    ensures { result ≡ counts_of (world_of store.entry.words.now strings.now) }
{
    Counts {
        live: store.live(),
        strings: text::count(strings).unwrap_or(0),
        callable: store.callable(),
    }
}

// Whether a step that revokes has a proxy.
fn revokes_proxy(store: StoreWords<'_>, code: u64, object: u64) -> bool
    ensures { result ≡ (eqb code 3 && is_proxy (lookup (store_of store.entry.words.now) object)) }
{
    code == 3 && is_proxy(store, object)
}

// Refusals 1 to 3 over the step, then 14; 4 where it passes. Whether an object is named is asked for a release alone.
fn step_and_release_refusal(
    store: StoreWords<'_>,
    counts: Counts,
    code: u64,
    object: u64,
    bytes: &[u8],
) -> u64
    ensures { result ≡ release_refusal (releases code && is_named (store_of store.entry.words.now) object) (step_refusal (eqb code 3 && is_proxy (lookup (store_of store.entry.words.now) object)) counts bytes.now) }
{
    let proxy = revokes_proxy(store, code, object);
    let refused = step_refusals::step_refusal(proxy, counts, bytes);
    if code == 17 && refused == 4 && store.is_named(object) {
        return 14;
    }
    refused
}

// The number of the first test that the records do not pass.
#[tactic(auto, using(crate::proofs::TestLaws::no_length, crate::proofs::TestLaws::all_tests))]
pub fn record_refusal(
    store: StoreWords<'_>,
    strings: &[u16],
    bytes: &[u8],
    sheet: &[u8],
) -> Option<u64>
    requires { is_table strings.now ≡ true }
    ensures { result ≡ first_failing (record_tests (world_of store.entry.words.now strings.now) bytes.now sheet.now) }
{
    if bytes.len() != 58 {
        return Some(1);
    }
    let counts = counts_of(store, strings);
    let code = u64::from(bytes[0]);
    let object = u64::from(bytes[1]);
    let refused = step_and_release_refusal(store, counts, code, object, bytes);
    if refused != 4 {
        return Some(refused);
    }
    if !value_refusals::is_descriptor_at(bytes, 29) {
        return Some(4);
    }
    refusal_of(sheet_refusals::sheet_refusal(counts, sheet))
}
