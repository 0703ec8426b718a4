// What is counted of calls and comparisons, and the report of it.
ghost use Rattle.std.specs.Prelude.{◌≤◌, length};

use crate::comparison::Ending;
use crate::line_input::Call;
use std::fmt;
use std::fmt::Display;

// The refusal of a line of a text, which no call is.
const LINE_REFUSAL: usize = 12;

// Messages and refusals by their numbers, messages that the engine's text tells alone, kinds of call and outcomes by theirs.
#[derive(Default, Drop)]
pub struct Tally {
    messages: [u64; 33],
    told: [u64; 33],
    refusals: [u64; 15],
    kinds: [u64; 8],
    outcomes: [u64; 4],
    calls: u64,
    pub lines: u64,
    pub differences: u64,
    releases: u64,
}

fn count(counts: &mut [u64], number: u64) {
    if let Some(count) = counts.get_mut(number as usize) {
        increment(count);
    }
}

fn increment(count: &mut u64) {
    *count = count.wrapping_add(1);
}

fn is_release(call: &Call<'_>) -> bool {
    call.kind == 1 && call.record.first() == Some(&17)
}

impl Tally {
    // `told` says whether the engine's text tells the message alone. Kind 0 is no call.
    pub fn count_call(&mut self, call: &Call<'_>, ending: Ending, told: bool) {
        increment(&mut self.lines);
        count(&mut self.kinds, u64::from(call.kind % 8));
        if call.kind != 0 {
            increment(&mut self.calls);
            count(&mut self.outcomes, ending.outcome);
        }
        match ending.outcome {
            0 => count(&mut self.refusals, ending.number),
            1 if is_release(call) => increment(&mut self.releases),
            2 => {
                count(&mut self.messages, ending.number);
                if told {
                    count(&mut self.told, ending.number);
                }
            }
            _ => {}
        }
    }

    pub fn count_difference(&mut self) {
        increment(&mut self.differences);
    }
}

fn zeros(counts: &[u64]) -> usize
    ensures { result ≤ length counts.now }
{
    counts.iter().filter(|count| **count == 0).count()
}

impl Display for Tally {
    fn fmt<W: fmt::Write>(&self, f: &mut fmt::Formatter<W>) -> fmt::Result {
        for (n, (message, told)) in self.messages.iter().zip(&self.told).enumerate().skip(1) {
            writeln!(
                f,
                "message {n}: {message}, told by the engine's text alone {told}"
            )?;
        }
        for (n, refusal) in self.refusals.iter().enumerate().skip(1) {
            if n != LINE_REFUSAL {
                writeln!(f, "refusal {n}: {refusal}")?;
            }
        }
        let [stores, steps, strings, completed, ..] = self.kinds;
        let [.., fixed, extensible, merged, pages] = self.kinds;
        let [refused, results, type_errors, throws] = self.outcomes;
        let (calls, differences, releases) = (self.calls, self.differences, self.releases);
        let messages = zeros(&self.messages[1..]);
        let refusals = zeros(&self.refusals[1..LINE_REFUSAL])
            + zeros(&self.refusals[LINE_REFUSAL + 1..]);
        writeln!(
            f,
            "stores {stores}, steps {steps} with {releases} releases, strings {strings}, completing {completed}, \
            validating {fixed} and {extensible}, merging {merged}, pages {pages}"
        )?;
        writeln!(
            f,
            "refused {refused}, results {results}, TypeErrors {type_errors}, throws {throws}"
        )?;
        writeln!(f, "{messages} messages and {refusals} refusals missing")?;
        writeln!(f, "{calls} calls, {differences} differences")
    }
}
