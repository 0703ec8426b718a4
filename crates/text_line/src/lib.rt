// One line of a text: its call is performed, and its row is written.
// (15 is a code of the bytes, beside those of steps.)
#![tactic(auto)]

ghost use Rattle.std.specs.Prelude.{◌≡◌, true, ◌*◌, ◌≤◌, length, None};
ghost use Rattle.reporting.specs.Memory.{is_memory};
ghost use Rattle.text_line.specs.Lines.{row_room, LineDone};

use step_records::step_refusals;
use text_cells::{cells, hexadecimal, parts};

// What lines are performed in: words and strings that are memory, and room for the heading and a row.
#[derive(Drop)]
pub struct Memory<'a> {
    pub words: &'a mut [u64],
    pub strings: &'a mut [u16],
    pub rows: &'a mut [u8],
    pub ghost memory: { is_memory words.now strings.now ≡ true },
    pub ghost room: { row_room ≤ length rows.now },
}

// Refusal 12: words and strings are read alone.
pub fn refuse(words: &[u64], strings: &[u16], number: u64, rows: &mut [u8]) -> usize
    requires { (is_memory words.now strings.now ≡ true) × (row_room ≤ length rows.old) }
    ensures { LineDone words.now strings.now rows.old number None words.now strings.now rows.new result }
{
    text_rows::put_row(rows, 0, number, reporting::refused(12), b"")
}

impl Memory<'_> {
    ghost use Rattle.steps.specs.Run.{step};
    ghost use Rattle.text_cells.specs.Answers.{AreColumns};
    ghost use Rattle.text_form.specs.Cells.{sheet_in, text_in, units_of};
    ghost use Rattle.text_form.specs.Lines.{key_room, step_with, entry_of, call_in};
    ghost use Rattle.text_line.specs.Performed.{Performed};

    // The same in this memory.
    pub fn refuse(&mut self, number: u64) -> usize
        ensures done { Performed self.old number None self.new result }
        ensures words_after { self.new.words.now ≡ self.old.words.now }
        ensures strings_after { self.new.strings.now ≡ self.old.strings.now }
    {
        // Variables of their own, as in perform_step.
        let (words, strings) = (&mut *self.words, &mut *self.strings);
        refuse(words, strings, number, self.rows)
    }

    // A step with its sheet.
    fn perform_step(&mut self, bytes: &[u8], sheet: &[u8], number: u64) -> usize
        ensures { Performed self.old number (Some (step bytes.now sheet.now key_room)) self.new result }
    {
        let mut output = [0u8; 2304];
        // A variable of its own, so that a proof knows what the strings are after the call.
        let strings = &mut *self.strings;
        let report = step::step(self.words, strings, bytes, sheet, &mut output);
        text_rows::put_row(self.rows, 0, number, report, &output)
    }

    // A step whose sheet stands in a cell; a dash is the sheet of no answers.
    fn step_line(&mut self, bytes: &[u8], cell: &[u8], number: u64) -> usize
        requires { length cell.now ≤ 16384 }
        ensures { Performed self.old number (step_with bytes.now (sheet_in cell.now)) self.new result }
    {
        if hexadecimal::is_dash(cell) {
            let sheet = [0u8; 1];
            return self.perform_step(bytes, &sheet, number);
        }
        let mut sheet = [0u8; 8192];
        match hexadecimal::put_some(cell, &mut sheet) {
            None => self.refuse(number),
            Some(n) => self.perform_step(bytes, &sheet[..n], number),
        }
    }

    // A string is entered, where the other cells are zero.
    fn perform_entry(&mut self, bytes: &[u8], units: &[u16], number: u64) -> usize
        requires { length bytes.now ≡ 58 }
        ensures { Performed self.old number (entry_of bytes.now (Some units.now)) self.new result }
    {
        if step_refusals::are_zero_from(bytes, 1) {
            let report = step::enter_string(self.strings, units);
            return text_rows::put_row(self.rows, 0, number, report, b"");
        }
        self.perform_step(bytes, b"", number)
    }

    // The same with the bytes of the code units, which are written first.
    fn perform_units(&mut self, bytes: &[u8], text: &[u8], units: &mut [u16], number: u64) -> usize
        requires { (length bytes.now ≡ 58) × (length text.now ≤ 2 * length units.old) }
        ensures { Performed self.old number (entry_of bytes.now (units_of text.now)) self.new result }
    {
        if text.len() % 2 == 1 {
            return self.refuse(number);
        }
        let n = text.len() / 2;
        hexadecimal::put_units(text, &mut units[..n]);
        self.perform_entry(bytes, &units[..n], number)
    }

    // A string whose code units stand in a cell.
    fn entry_line(&mut self, bytes: &[u8], cell: &[u8], number: u64) -> usize
        requires { (length bytes.now ≡ 58) × (length cell.now ≤ 16384) }
        ensures { Performed self.old number (entry_of bytes.now (text_in cell.now)) self.new result }
    {
        let mut text = [0u8; 8192];
        let mut units = [0u16; 4096];
        if hexadecimal::is_dash(cell) {
            return self.perform_units(bytes, b"", &mut units, number);
        }
        match hexadecimal::put_some(cell, &mut text) {
            None => self.refuse(number),
            Some(n) => self.perform_units(bytes, &text[..n], &mut units, number),
        }
    }

    // A line under these columns.
    pub fn perform_line(&mut self, columns: &[u64], line: &[u8], number: u64) -> usize
        requires { AreColumns columns.now × (length line.now ≤ 16384) }
        ensures { Performed self.old number (call_in columns.now line.now) self.new result }
    {
        let Some(starts) = cells::cells_of(line) else {
            return self.refuse(number);
        };
        let mut bytes = [0u8; 58];
        if parts::put_record(line, &starts, columns, &mut bytes) {
            let cell = cells::cell_in(line, &starts, columns[6]);
            if bytes[0] == 15 {
                return self.entry_line(&bytes, cell, number);
            }
            return self.step_line(&bytes, cell, number);
        }
        self.refuse(number)
    }
}
