// Steps from a text, in pieces of any size: rows come out as lines are complete.
// Feeding and ending are apart, as C has two functions. Lengths are as the definitions have them.
#![tactic(auto)]

ghost use Rattle.std.specs.Prelude.{◌≡◌, true, ◌+◌, ◌≤◌, ◌<◌, length, get_or, set};
ghost use Rattle.text_form.specs.Lines.{maximum_line};
ghost use Rattle.text_form.specs.Reader.{first, later, added, columns_in, Fits};
ghost use Rattle.text_reader.specs.Memory.{state_size, column_words, phase_in, line_of, are_below, maximum_count, is_state, is_accepted, bytes_in, Started, Fed, Ended};

use text::copying;
use text_cells::{cells, names};
use text_line::Memory;

// Bytes taken of a piece and bytes of rows written; none where the call is refused. (C is handed all three, and `Fed` and `Ended` speak of them.)
#[derive(Clone, Copy)]
pub struct Progress {
    pub accepted: bool,
    pub taken: usize,
    pub written: usize,
}

const MAXIMUM_LINE: u64 = 16384;

// The size of a line that is too long. (A number, since it is one of the ten words that C keeps.)
const TOO_LONG: u64 = 16385;

const ROW_ROOM: usize = 4800;

const HEADING_SIZE: usize = 40;

const REFUSED: Progress = Progress {
    accepted: false,
    taken: 0,
    written: 0,
};

// What the next line is: the names, or a call under their columns. After the input's end and where the names are broken there is none.
#[derive(Clone, Copy)]
enum Phase {
    First,
    Later,
    Ended,
}

// The ten words that a reader keeps between pieces: its phase, the lines so far, the size of the line that has begun, and the columns.
#[derive(Drop)]
struct State<'a> {
    words: &'a mut [u64],
    ghost ten: { length words.now ≡ state_size },
    ghost below: { are_below 7 (column_words words.now) ≡ true },
}

// Memory of the right lengths becomes a reader that has read nothing.
pub fn start(words: &mut [u64], strings: &mut [u16], state: &mut [u64]) -> bool
    ensures { Started words.old strings.old state.old result words.new strings.new state.new }
{
    if words.len() == 1670 && strings.len() == 8449 && state.len() == 10 {
        store_write::make_empty(words);
        text::make_empty(strings);
        state.fill(0);
        return true;
    }
    false
}

#[tactic(auto, using(crate::proofs::StateLaws::below_next, crate::proofs::StateLaws::below_fails, crate::proofs::StateLaws::below_end))]
fn are_columns(columns: &[u64]) -> bool
    ensures { result ≡ are_below 7 columns.now }
{
    for &column in columns {
        if 7 <= column {
            return false;
        }
    }
    true
}

// Whether ten words are a reader's state.
#[tactic(auto, using(crate::proofs::StateLaws::is_state_lem), unfolding(crate::specs::Memory::is_state))]
fn is_state(state: &[u64]) -> bool
    ensures { result ≡ is_state state.now }
{
    state.len() == 10 && are_columns(&state[3..]) && state[1] < u64::MAX
}

#[tactic(auto, unfolding(crate::specs::Memory::is_reader))]
fn is_accepted(words: &[u64], strings: &[u16], state: &[u64], line: &[u8], rows: &[u8]) -> bool
    ensures { result ≡ is_accepted words.now strings.now state.now line.now rows.now }
{
    reporting::is_memory(words, strings)
        && is_state(state)
        && line.len() == 16384
        && ROW_ROOM <= rows.len()
}

// The bytes of a piece behind those of the line, and how many there are then; one more than a line may have where it is too long.
fn keep(line: &mut [u8], size: u64, piece: &[u8]) -> u64
    requires { length line.old ≡ maximum_line }
    ensures { line_of result line.new ≡ added (line_of size line.old) piece.now }
{
    if size <= MAXIMUM_LINE {
        let at = size as usize;
        let count = piece.len();
        if count <= 16384 - at {
            copying::copy(&mut line[at..at + count], piece);
            return (at + count) as u64;
        }
    }
    TOO_LONG
}

// The line that has begun; none where it is too long.
fn begun(line: &[u8], size: u64) -> Option<&[u8]>
    requires { length line.now ≡ maximum_line }
    ensures { (bytes_in result ≡ line_of size line.now) × Fits (bytes_in result) }
{
    if size <= MAXIMUM_LINE {
        let end = size as usize;
        return Some(&line[..end]);
    }
    None
}

// The columns of the names, if the line has them.
fn columns_in(line: Option<&[u8]>) -> Option<[u64; 7]>
    requires { Fits (bytes_in line) }
    ensures { result ≡ columns_in (bytes_in line.entry) }
{
    let mut columns = [0u64; 7];
    names::put_columns(line?, &mut columns).then_some(columns)
}

impl State<'_> {
    ghost use Rattle.text_reader.specs.Reading.{phase_as, CanCount, CanRead, Closed, LineEnded, PieceRead, LastRead};

    #[tactic(auto, using(crate::proofs::ReadLaws::phase_first, crate::proofs::ReadLaws::phase_later, crate::proofs::ReadLaws::phase_ended))]
    fn phase(&self) -> Phase
        ensures { phase_in self.now.words.now ≡ phase_as result (column_words self.now.words.now) }
    {
        match self.words[0] {
            0 => Phase::First,
            1 => Phase::Later,
            _ => Phase::Ended,
        }
    }

    fn columns(&self) -> &[u64]
        ensures { result.now ≡ column_words self.now.words.now }
    {
        &self.words[3..]
    }

    // The first line is complete: the heading, and row 0 where it is broken.
    fn end_first(&mut self, line: Option<&[u8]>, memory: &mut Memory) -> usize
        requires { (phase_in self.old.words.now ≡ first) × Fits (bytes_in line) }
        ensures { LineEnded self.old memory.old (bytes_in line.entry) self.new memory.new result }
    {
        text_rows::put_heading(memory.rows);
        self.words[2] = 0;
        if let Some(columns) = columns_in(line) {
            self.words[3..].copy_from_slice(&columns);
            self.words[0] = Phase::Later as u64;
            return HEADING_SIZE;
        }
        self.words[0] = Phase::Ended as u64;
        text_rows::put_row(memory.rows, HEADING_SIZE, 0, reporting::refused(12), b"")
    }

    // A later line is complete: its row.
    fn end_later(&mut self, line: Option<&[u8]>, memory: &mut Memory) -> usize
        requires { (phase_in self.old.words.now ≡ later (column_words self.old.words.now)) × (CanCount self.old × Fits (bytes_in line)) }
        ensures { LineEnded self.old memory.old (bytes_in line.entry) self.new memory.new result }
    {
        let number = self.words[1] + 1;
        self.words[1] = number;
        self.words[2] = 0;
        match line {
            Some(line) => memory.perform_line(self.columns(), line, number),
            None => memory.refuse(number),
        }
    }

    fn end_line(&mut self, line: Option<&[u8]>, memory: &mut Memory) -> usize
        requires { CanRead self.old × Fits (bytes_in line) }
        ensures { LineEnded self.old memory.old (bytes_in line.entry) self.new memory.new result }
    {
        if let Phase::First = self.phase() {
            return self.end_first(line, memory);
        }
        self.end_later(line, memory)
    }

    // The piece up to and with its first line feed, or all of it.
    fn read_piece(&mut self, line: &mut [u8], piece: &[u8], memory: &mut Memory) -> Progress
        requires { CanRead self.old × (length line.old ≡ maximum_line) }
        ensures { PieceRead self.old memory.old line.old piece.now result self.new memory.new line.new }
    {
        let end = cells::next_separator(piece, 0, 10);
        let size = keep(line, self.words[2], &piece[..end]);
        if end == piece.len() {
            self.words[2] = size;
            return Progress {
                accepted: true,
                taken: end,
                written: 0,
            };
        }
        let written = self.end_line(begun(line, size), memory);
        Progress {
            accepted: true,
            taken: end + 1,
            written,
        }
    }

    // The last line, if one has begun; the first line has, even if nothing came.
    fn read_last(&mut self, line: &[u8], memory: &mut Memory) -> usize
        requires { CanCount self.old × (length line.now ≡ maximum_line) }
        ensures { LastRead self.old memory.old line.now self.new memory.new result }
    {
        let size = self.words[2];
        match self.phase() {
            Phase::First => self.end_first(begun(line, size), memory),
            Phase::Later => {
                if size == 0 {
                    return 0;
                }
                self.end_later(begun(line, size), memory)
            }
            Phase::Ended => 0,
        }
    }

    fn close(&mut self)
        ensures { Closed self.old self.new }
    {
        self.words[0] = Phase::Ended as u64;
        self.words[2] = 0;
    }
}

// Takes bytes of a piece up to and with its first line feed, and writes at most one row. Nothing is taken once reading has ended.
pub fn feed(
    words: &mut [u64],
    strings: &mut [u16],
    state: &mut [u64],
    line: &mut [u8],
    piece: &[u8],
    rows: &mut [u8],
) -> Progress
    ensures { Fed words.old strings.old state.old line.old piece.now rows.old result words.new strings.new state.new line.new rows.new }
{
    if !is_accepted(words, strings, state, line, rows) {
        return REFUSED;
    }
    let mut memory = Memory {
        words,
        strings,
        rows,
    };
    let mut state = State { words: state };
    match state.phase() {
        Phase::First | Phase::Later => state.read_piece(line, piece, &mut memory),
        Phase::Ended => Progress {
            accepted: true,
            taken: 0,
            written: 0,
        },
    }
}

// The input has ended: the row of a line that has begun, or the heading with row 0 where there was no first line.
pub fn end(
    words: &mut [u64],
    strings: &mut [u16],
    state: &mut [u64],
    line: &[u8],
    rows: &mut [u8],
) -> Progress
    ensures { Ended words.old strings.old state.old line.now rows.old result words.new strings.new state.new rows.new }
{
    if !is_accepted(words, strings, state, line, rows) {
        return REFUSED;
    }
    let mut memory = Memory {
        words,
        strings,
        rows,
    };
    let mut state = State { words: state };
    let written = state.read_last(line, &mut memory);
    state.close();
    Progress {
        accepted: true,
        taken: 0,
        written,
    }
}
