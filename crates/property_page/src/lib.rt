// The property page of an ordinary object: a line of names, and a line for each own property in the order of the own keys.
// lines: a line in lent bytes.
#![tactic(auto)]

ghost use Rattle.std.specs.Prelude.{◌≡◌, map, ◌+◌, ◌*◌, ◌≤◌, length};
ghost use Rattle.std.proofs.lemmas.List.Edits.{sets};
ghost use Rattle.store.specs.Store.{own};
ghost use Rattle.store.specs.Words.{store_of, world_of};
ghost use Rattle.store_read.specs.Answers.{key_from_word};
ghost use Rattle.steps.specs.Page.{own_of, lines, page, writing};
ghost use Rattle.steps.specs.Perform as performed;
ghost use Rattle.steps.specs.Step.{output_holds};
ghost use Rattle.reporting.specs.Memory.{shown, shown_by, Paged};
ghost use Rattle.property_page.specs.Reading.{OrdinaryIn};

use calls::{Progress, Run};
use property::Property;
use steps::{Completion, Outcome, Report};
use store::Object;
use store_read::StoreWords;
use value::PropertyKey;

mod lines;

// What [[GetOwnProperty]] answers: one call, and no answers. (Steps search by the same function; with a second caller of `own` the compiler
// would not join it with them.)
fn read_property(
    store: StoreWords<'_>,
    strings: &[u16],
    o: u64,
    key: PropertyKey,
) -> Option<Property>
    requires { OrdinaryIn store.words.now strings.now o }
    ensures { result ≡ own (store_of store.entry.words.now) o key }
{
    let sheet = [0u8; 1];
    let run = Run {
        store,
        strings,
        allowance: 256,
        sheet: &sheet,
    };
    let mut progress = Progress {
        at: 1,
        left: 0,
        calls: 1,
    };
    match own_property::get_own_property(&run, o, key, 1, &mut progress) {
        Ok(p) => p,
        Err(_) => None,
    }
}

// The keys' lines, after the names; all other bytes stay. (A key without a property takes no line, so the place goes on by hand.)
#[tactic(auto, using(crate::proofs::PageLaws::line_next, crate::proofs::PageLaws::line_none, crate::proofs::PageLaws::line_end))]
fn put_lines(store: StoreWords<'_>, strings: &[u16], o: u64, keys: &[u64], out: &mut [u8])
    requires { OrdinaryIn store.words.now strings.now o × (47 + 47 * length keys.now ≤ length out.old) }
    ensures { out.new ≡ sets out.old 47 (lines (own_of (store_of store.entry.words.now) o (map key_from_word keys.now))) }
{
    let mut at: usize = lines::LINE_SIZE;
    for &word in keys {
        let key = store_read::key_from_word(word);
        if let Some(p) = read_property(store, strings, o, key) {
            lines::put_line(out, at, key, p);
            at += lines::LINE_SIZE;
        }
    }
}

// Refusal 11, or the page in the output.
fn put_page(store: StoreWords<'_>, strings: &[u16], o: u64, output: &mut [u8]) -> Report
    requires { OrdinaryIn store.words.now strings.now o }
    ensures { shown result store.entry.words.now strings.now output.new ≡ shown_by (writing (world_of store.entry.words.now strings.now) (page (world_of store.entry.words.now strings.now) o) output.old (output_holds (performed.page (page (world_of store.entry.words.now strings.now) o)) output.old)) }
{
    let mut keys = [0u64; 256];
    let n = store.list_own_keys(strings, o, &mut keys);
    let size = lines::LINE_SIZE + lines::LINE_SIZE * n;
    if size <= output.len() {
        lines::put_names(output);
        put_lines(store, strings, o, &keys[..n], output);
        return Report {
            outcome: Outcome::Result(Completion::Page(size as u64)),
            answers: 0,
            calls: 0,
        };
    }
    reporting::refused(11)
}

// The page of object o at the output's start. Memory that is no store and table is refused as 1, a number never made as 2, a proxy as 3.
pub fn page(words: &[u64], strings: &[u16], o: u64, output: &mut [u8]) -> Report
    ensures { Paged words.now strings.now o output.old result output.new }
{
    if !reporting::is_memory(words, strings) {
        return reporting::refused(1);
    }
    let store = StoreWords { words };
    match store.object_at(o) {
        None => reporting::refused(2),
        Some(Object::Ordinary(_)) => put_page(store, strings, o, output),
        Some(Object::Proxy(_)) => reporting::refused(3),
    }
}
