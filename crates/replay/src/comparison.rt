// What a call ends in, beside what the line expects.
use std::fmt::Display;
use std::{fmt, io};

// Outcome (0 refused, 1 result, 2 TypeError, 3 throw), the refusal's or message's number, and answers used.
// (Numbers, as the lines have them and a difference shows them.)
#[derive(Clone, Copy)]
pub struct Ending {
    pub outcome: u64,
    pub number: u64,
    pub answers: u64,
}

// What a call ended in, and what it wrote: its completion, the output, and the store after it.
#[derive(Clone, Copy)]
pub struct Observed<'a> {
    pub ending: Ending,
    pub completion: &'a [u8],
    pub output: &'a [u8],
    pub store: &'a [u8],
}

// What a line expects, and its parts before the completion. Past the end of its bytes there are zeros.
#[derive(Clone, Copy)]
pub struct Expectation<'a> {
    bytes: &'a [u8],
    outcome: u8,
    numbers: u32,
    answers: u8,
    completion_size: u16,
}

#[derive(Clone, Copy)]
pub enum Part {
    Outcome,
    Number,
    Answers,
    Completion,
    Output,
    Store,
}

// What is left of the bytes after others that stand at their start. The bytes go on in zeros.
fn after<'a>(bytes: &'a [u8], others: &[u8]) -> Option<&'a [u8]> {
    let (inside, beyond) = others.split_at(others.len().min(bytes.len()));
    if beyond.iter().all(|byte| *byte == 0) {
        bytes.strip_prefix(inside)
    } else {
        None
    }
}

impl<'a> Expectation<'a> {
    pub fn new(bytes: &'a [u8]) -> Expectation<'a> {
        let mut head = [0; 8];
        for (to, from) in head.iter_mut().zip(bytes) {
            *to = *from;
        }
        let [outcome, first, second, third, fourth, answers, low, high] = head;
        Expectation {
            bytes,
            outcome,
            numbers: u32::from_le_bytes([first, second, third, fourth]),
            answers,
            completion_size: u16::from_le_bytes([low, high]),
        }
    }

    // Whether number n is one of those that would be right; bit 0 is that of 32, and above 32 it is none.
    fn allows(&self, n: u64) -> bool {
        n <= 32 && self.numbers >> (n % 32) & 1 == 1
    }

    // Whether number n and no other would be right.
    pub fn tells(&self, n: u64) -> bool {
        self.allows(n) && self.numbers.count_ones() == 1
    }

    // The part of what was written that is not as expected.
    fn written_difference(&self, observed: &Observed<'_>) -> Option<Part> {
        if observed.completion.len() != usize::from(self.completion_size) {
            return Some(Part::Completion);
        }
        let written = self.bytes.get(8..).unwrap_or_default();
        let Some(output) = after(written, observed.completion) else {
            return Some(Part::Completion);
        };
        match after(output, observed.output) {
            None => Some(Part::Output),
            Some(store) if store != observed.store => Some(Part::Store),
            Some(_) => None,
        }
    }

    // The first part that is not as expected.
    pub fn difference(&self, observed: &Observed<'_>) -> Option<Part> {
        let ending = observed.ending;
        let is_numbered = matches!(ending.outcome, 0 | 2);
        if ending.outcome != u64::from(self.outcome) {
            Some(Part::Outcome)
        } else if ending.answers != u64::from(self.answers) {
            Some(Part::Answers)
        } else if is_numbered && !self.allows(ending.number) {
            Some(Part::Number)
        } else {
            self.written_difference(observed)
        }
    }
}

impl Display for Part {
    fn fmt<W: fmt::Write>(&self, f: &mut fmt::Formatter<W>) -> fmt::Result {
        f.write_str(match self {
            Part::Outcome => "outcome",
            Part::Number => "number",
            Part::Answers => "answers",
            Part::Completion => "completion",
            Part::Output => "output",
            Part::Store => "store",
        })
    }
}

// Bytes as hexadecimal digits.
#[derive(Clone, Copy)]
struct Digits<'a>(&'a [u8]);

impl Display for Digits<'_> {
    fn fmt<W: fmt::Write>(&self, f: &mut fmt::Formatter<W>) -> fmt::Result {
        for byte in self.0 {
            write!(f, "{byte:02x}")?;
        }
        Ok(())
    }
}

// Shows a difference: which line and part, what was expected, and what there is.
pub fn show(
    rt: &impl Print,
    line: u64,
    part: Part,
    expectation: &Expectation<'_>,
    observed: &Observed<'_>,
) -> io::Result<()> {
    let Ending {
        outcome,
        number,
        answers,
    } = observed.ending;
    println!(rt;
        "line {line}: the {part} differs; outcome {outcome}, number {number}, answers {answers}"
    )?;
    println!(rt; "  expected   {}", Digits(expectation.bytes))?;
    println!(rt; "  completion {}", Digits(observed.completion))?;
    println!(rt; "  output     {}", Digits(observed.output))?;
    println!(rt; "  store      {}", Digits(observed.store))
}
