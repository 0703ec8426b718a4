// The interface for C and Rust to link. A report is ten words (reporting: report_words). No function has a condition on what
// it is lent.
#![tactic(auto)]

ghost use Rattle.std.specs.Prelude.{◌≡◌, true, [], eqb, length};
ghost use Rattle.text.specs.Table.{table_size, strings_of, is_table};
ghost use Rattle.store.specs.Store.{Store, empty};
ghost use Rattle.store.specs.Words.{store_size, store_of, is_store};
ghost use Rattle.store_write.specs.Write as store_writes;
ghost use Rattle.text.specs.Answers as table_answers;
ghost use Rattle.reporting.specs.ReportWords.{report_words};
ghost use Rattle.reporting.specs.Memory.{StepExported, StringExported, PageExported};
ghost use Rattle.descriptor_entries.specs.Entries.{complete_over, validate_over, merge_over, verdict_report, is_accepted, failed_test};
ghost use Rattle.internal_methods.specs.Messages.{message_text};
ghost use Rattle.message.specs.Written.{written};
ghost use Rattle.text_reader.specs.Memory.{Started, Fed, Ended, progress_of};

use message::writing;
use reporting::report_words;

// One step.
#[unsafe(no_mangle)]
pub extern "C" fn demnyaluz_step(
    words: &mut [u64],
    strings: &[u16],
    bytes: &[u8],
    sheet: &[u8],
    output: &mut [u8],
    report: &mut [u64; 10],
)
    ensures { StepExported words.old strings.now bytes.now sheet.now output.old report.new words.new output.new }
{
    report_words::write_report(step::step(words, strings, bytes, sheet, output), report);
}

// A string's code units are entered.
#[unsafe(no_mangle)]
pub extern "C" fn demnyaluz_enter_string(strings: &mut [u16], units: &[u16], report: &mut [u64; 10])
    ensures { StringExported strings.old units.now report.new strings.new }
{
    report_words::write_report(step::enter_string(strings, units), report);
}

// The property page of an ordinary object.
#[unsafe(no_mangle)]
pub extern "C" fn demnyaluz_page(
    words: &[u64],
    strings: &[u16],
    object: u64,
    output: &mut [u8],
    report: &mut [u64; 10],
)
    ensures { PageExported words.now strings.now object output.old report.new output.new }
{
    report_words::write_report(property_page::page(words, strings, object, output), report);
}

// A descriptor is completed by itself.
#[unsafe(no_mangle)]
pub extern "C" fn demnyaluz_complete(
    words: &[u64],
    strings: &[u16],
    bytes: &[u8],
    report: &mut [u64; 10],
)
    ensures reported { report.new ≡ report_words (complete_over words.now strings.now bytes.now) }
{
    report_words::write_report(descriptor_entries::complete(words, strings, bytes), report);
}

// A descriptor is validated by itself over a current one, or none: yes or no, the first test that fails, and a report of the property after it.
#[unsafe(no_mangle)]
pub extern "C" fn demnyaluz_validate(
    words: &[u64],
    strings: &[u16],
    extensible: bool,
    bytes: &[u8],
    current: &[u8],
    report: &mut [u64; 10],
    test: &mut u64,
) -> bool
    ensures accepted { result ≡ is_accepted (validate_over words.now strings.now extensible bytes.now current.now) }
    ensures tested { test.new ≡ failed_test (validate_over words.now strings.now extensible bytes.now current.now) }
    ensures reported { report.new ≡ report_words (verdict_report (validate_over words.now strings.now extensible bytes.now current.now)) }
{
    let verdict = descriptor_entries::validate(words, strings, extensible, bytes, current);
    report_words::write_report(descriptor_entries::verdict_report(verdict), report);
    *test = descriptor_entries::failed_test(verdict);
    descriptor_entries::is_accepted(verdict)
}

// A descriptor is merged into a current one by itself.
#[unsafe(no_mangle)]
pub extern "C" fn demnyaluz_merge(
    words: &[u64],
    strings: &[u16],
    current: &[u8],
    bytes: &[u8],
    report: &mut [u64; 10],
)
    ensures reported { report.new ≡ report_words (merge_over words.now strings.now current.now bytes.now) }
{
    report_words::write_report(
        descriptor_entries::merge(words, strings, current, bytes),
        report,
    );
}

// The text of message n, where it fits, and its length.
#[unsafe(no_mangle)]
pub extern "C" fn demnyaluz_message(n: u64, text: &mut [u8]) -> u64
    ensures size { result ≡ length (message_text n) }
    ensures after { text.new ≡ written (message_text n) text.old }
{
    writing::write_message(n, text)
}

// Words of the right length become an empty store; others are left.
#[unsafe(no_mangle)]
pub extern "C" fn demnyaluz_empty_store(words: &mut [u64]) -> bool
    ensures answer { result ≡ eqb (length words.old) store_size }
    ensures after { words.new ≡ store_writes.emptied words.old }
    ensures empty { result ≡ true → (store_of words.new ≡ empty.store) × (is_store words.new ≡ true) }
{
    store_write::make_empty(words)
}

// Cells of the right length become an empty table of strings; others are left.
#[unsafe(no_mangle)]
pub extern "C" fn demnyaluz_empty_strings(strings: &mut [u16]) -> bool
    ensures answer { result ≡ eqb (length strings.old) table_size }
    ensures after { strings.new ≡ table_answers.emptied strings.old }
    ensures empty { result ≡ true → strings_of strings.new ≡ [] }
    ensures table { result ≡ true → is_table strings.new ≡ true }
{
    text::make_empty(strings)
}

// Memory of the right lengths becomes a reader of a text that has read nothing; other memory is left.
#[unsafe(no_mangle)]
pub extern "C" fn demnyaluz_text_start(
    words: &mut [u64],
    strings: &mut [u16],
    state: &mut [u64],
) -> bool
    ensures { Started words.old strings.old state.old result words.new strings.new state.new }
{
    text_reader::start(words, strings, state)
}

// A piece of a text, up to and with its first line feed: at most one row. The result is how many bytes were taken and written.
#[unsafe(no_mangle)]
pub extern "C" fn demnyaluz_text_feed(
    words: &mut [u64],
    strings: &mut [u16],
    state: &mut [u64],
    line: &mut [u8],
    piece: &[u8],
    rows: &mut [u8],
    res: &mut [u64; 2],
) -> bool
    ensures { Fed words.old strings.old state.old line.old piece.now rows.old (progress_of result res.new) words.new strings.new state.new line.new rows.new }
{
    let p = text_reader::feed(words, strings, state, line, piece, rows);
    *res = [p.taken as u64, p.written as u64];
    p.accepted
}

// The end of a text: the row of a line that has begun, or the heading with row 0 where there was no first line.
#[unsafe(no_mangle)]
pub extern "C" fn demnyaluz_text_end(
    words: &mut [u64],
    strings: &mut [u16],
    state: &mut [u64],
    line: &[u8],
    rows: &mut [u8],
    res: &mut [u64; 2],
) -> bool
    ensures { Ended words.old strings.old state.old line.now rows.old (progress_of result res.new) words.new strings.new state.new rows.new }
{
    let p = text_reader::end(words, strings, state, line, rows);
    *res = [p.taken as u64, p.written as u64];
    p.accepted
}
