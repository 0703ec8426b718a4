// Reads a text of steps from the standard input and writes a row for each line to the standard output, as lines are complete.
#![tactic(auto)]

ghost use Rattle.std.specs.Prelude.{◌≤◌, length};

use std::io;
use std::io::Read;

const ROW_ROOM: usize = 4800;

// The memory that steps are over, the state between pieces, the line begun, and the rows that are not written yet.
#[derive(Drop)]
struct Reader {
    words: [u64; 1670],
    strings: [u16; 8449],
    state: [u64; 10],
    line: [u8; 16384],
    rows: [u8; 65536],
    used: usize,
    ghost fits: { used ≤ 65536 },
}

impl Reader {
    fn new() -> Reader {
        let mut words = [0; 1670];
        let mut strings = [0; 8449];
        let mut state = [0; 10];
        text_reader::start(&mut words, &mut strings, &mut state);
        Reader {
            words,
            strings,
            state,
            line: [0; 16384],
            rows: [0; 65536],
            used: 0,
        }
    }

    fn write_rows(&mut self, rt: &impl Print) -> io::Result<()> {
        rt.write_all(&self.rows[..self.used])?;
        self.used = 0;
        Ok(())
    }

    // How much of a piece is read in one call.
    fn feed_some(&mut self, piece: &[u8]) -> usize
        ensures { result ≤ length piece.now }
    {
        let Reader {
            words,
            strings,
            state,
            line,
            rows,
            used,
        } = self;
        let progress = text_reader::feed(words, strings, state, line, piece, &mut rows[*used..]);
        *used += progress.written;
        progress.taken
    }

    // All lines that a piece completes. False once nothing more is read.
    // (A `while`: how much of a piece is taken is known after each call.)
    fn feed(&mut self, rt: &impl Print, piece: &[u8]) -> io::Result<bool> {
        let mut rest = piece;
        while !rest.is_empty() {
            if self.rows.len() - self.used < ROW_ROOM {
                self.write_rows(rt)?;
            }
            let taken = self.feed_some(rest);
            if taken == 0 {
                self.write_rows(rt)?;
                return Ok(false);
            }
            rest = &rest[taken..];
        }
        self.write_rows(rt)?;
        Ok(true)
    }

    fn end(&mut self, rt: &impl Print) -> io::Result<()> {
        let Reader {
            words,
            strings,
            state,
            line,
            rows,
            used,
        } = self;
        *used = text_reader::end(words, strings, state, line, rows).written;
        self.write_rows(rt)
    }
}

fn main(rt: HostRuntime) -> io::Result<()> {
    let mut reader = Reader::new();
    let mut input = rt.reader();
    let mut piece = [0; 65536];
    for _ in 0..u64::MAX {
        let size = input.read(&mut piece)?;
        if size == 0 || !reader.feed(&rt, &piece[..size])? {
            break;
        }
    }
    reader.end(&rt)
}
