// A step of [[OwnPropertyKeys]]: its keys stand at the output's start, 9 bytes each.
// That lists fit is said of the answers still to come, so a clause says it and not `Run`.
ghost use Rattle.std.specs.Prelude.{◌≡◌, true, ◌≤◌, length};
ghost use Rattle.text.specs.Table.{is_table, strings_of};
ghost use Rattle.store.specs.Store.{maximum_properties};
ghost use Rattle.store.specs.Words.{store_of, world_of};
ghost use Rattle.internal_methods.specs.Monad.{done};
ghost use Rattle.record.specs.Sheet.{sheet_of, is_sheet};
ghost use Rattle.calls.specs.Outs.{context, state_of};
ghost use Rattle.own_keys.specs.Lists.{are_lists_fit};
ghost use Rattle.own_keys.specs.Loading.{listed_keys, Loadable};
ghost use Rattle.steps.specs.Operation.{own_property_keys};
ghost use Rattle.steps.specs.Perform.{perform, maximum_calls};
ghost use Rattle.steps.specs.Perform as performed;
ghost use Rattle.steps.specs.Step.{ended};
ghost use Rattle.reporting.specs.Reports.{start};
ghost use Rattle.reporting.specs.Memory.{shown, shown_by};

use crate::MAXIMUM_PROPERTIES;
use calls::{Progress, Run};
use key_lists::key_bytes;
use own_keys::loading;
use own_keys::loading::KeyList;
use reporting::MAXIMUM_CALLS;
use steps::{Completion, Report};
use store_read::StoreWords;

// Refusal 13 or 11, or the keys in the output.
fn write_out(run: &Run<'_>, found: KeyList, progress: Progress, output: &mut [u8]) -> Report
    requires { (is_sheet run.now.sheet.now ≡ true) × Loadable run.now.sheet.now found }
    ensures { shown result run.now.store.words.now run.now.strings.now output.new ≡ shown_by (ended (world_of run.now.store.words.now run.now.strings.now) (sheet_of run.now.sheet.now) output.old (done (performed.keys (listed_keys run.now.sheet.now (strings_of run.now.strings.now) (store_of run.now.store.words.now) found)) (state_of run.now.sheet.now progress), store_of run.now.store.words.now)) }
{
    if 0 < progress.left {
        return reporting::refused(13);
    }
    let mut keys = [0u64; 256];
    let n = loading::load_list(run, found, &mut keys);
    if 9 * n <= output.len() {
        key_bytes::write_keys(&keys, n, output);
        return reporting::completed(run.sheet, Completion::Keys(n as u64), progress);
    }
    reporting::refused(11)
}

// Code 14
pub fn list(
    store: StoreWords<'_>,
    strings: &[u16],
    sheet: &[u8],
    o: u64,
    output: &mut [u8],
) -> Report
    requires { (is_table strings.now ≡ true) × ((is_sheet sheet.now ≡ true) × (are_lists_fit (sheet_of sheet.now) ≡ true)) }
    ensures { shown result store.entry.words.now strings.now output.new ≡ shown_by (ended (world_of store.entry.words.now strings.now) (sheet_of sheet.now) output.old ((perform maximum_calls (context store.entry.words.now strings.now maximum_properties) (own_property_keys o)).run (state_of sheet.now (start sheet.now)))) }
{
    let run = Run {
        store,
        strings,
        allowance: MAXIMUM_PROPERTIES,
        sheet,
    };
    let mut progress = reporting::start(sheet);
    match own_keys::own_property_keys(&run, o, MAXIMUM_CALLS, &mut progress) {
        Err(f) => reporting::failed(sheet, f, progress),
        Ok(found) => write_out(&run, found, progress, output),
    }
}
