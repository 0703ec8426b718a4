// Performs the calls that a JavaScript engine performed, and counts those that end otherwise here than there.
// tests/engines/1-records.js has the layout of a line.
// line_input: a line's parts. entry_calls: the call. endings: what it ends in. readout: that and the whole store, as bytes.
// comparison: what differs from the line. tally: counts of all, printed.
#![tactic(auto)]

use crate::comparison::{Expectation, Observed};
use crate::entry_calls::Memory;
use crate::line_input::Call;
use crate::readout::Bytes;
use crate::tally::Tally;
use std::io;
use std::io::ErrorKind;

mod comparison;
mod endings;
mod entry_calls;
mod line_input;
mod readout;
mod tally;

// The most lines that are read.
const LINES: u64 = 1_000_000_000;

// The most differences that are shown.
const SHOWN: u64 = 10;

#[derive(Drop)]
struct Replay {
    memory: Memory,
    output: [u8; 65536],
    tally: Tally,
}

impl Replay {
    fn new() -> Replay {
        Replay {
            memory: Memory::new(),
            output: [0; 65536],
            tally: Tally::default(),
        }
    }

    // Performs a call over an output of 0xee, counts it, and shows it if it is among the first differences.
    fn run(&mut self, rt: &impl Print, call: &Call<'_>) -> io::Result<()> {
        let Replay {
            memory,
            output,
            tally,
        } = self;
        let output = &mut output[..usize::from(call.room)];
        output.fill(0xee);
        let mut completion = [0; 64];
        let mut completion = Bytes::new(&mut completion);
        let ending = memory.perform(call, output, &mut completion);
        let mut store = [0; 4096];
        let mut store = Bytes::new(&mut store);
        store.put_store(memory);
        let expectation = Expectation::new(call.expected);
        let observed = Observed {
            ending,
            completion: completion.as_slice(),
            output,
            store: store.as_slice(),
        };
        tally.count_call(call, ending, expectation.tells(ending.number));
        if let Some(part) = expectation.difference(&observed) {
            tally.count_difference();
            if tally.differences <= SHOWN {
                comparison::show(rt, tally.lines, part, &expectation, &observed)?;
            }
        }
        Ok(())
    }

    // A line that cannot be read counts as a difference, and is the last.
    fn run_all(&mut self, rt: &(impl Print + Input)) -> io::Result<()> {
        let mut digits = [0; 65536];
        let mut bytes = [0; 32768];
        let mut input = rt.reader();
        for _ in 0..LINES {
            match line_input::read_call(&mut input, &mut digits, &mut bytes) {
                Ok(Some(call)) => self.run(rt, &call)?,
                Ok(None) => break,
                Err(e) if matches!(e.kind(), ErrorKind::UnexpectedEof | ErrorKind::InvalidData) => {
                    println!(rt; "a line is broken")?;
                    self.tally.count_difference();
                    break;
                }
                Err(e) => return Err(e),
            }
        }
        Ok(())
    }
}

fn main(rt: HostRuntime) -> io::Result<()> {
    let mut replay = Replay::new();
    replay.run_all(&rt)?;
    print!(rt; "{}", replay.tally)
}
