// What a call ends in, for comparing; its completion is written.
use crate::comparison::Ending;
use crate::readout::Bytes;
use descriptor_entries::operations::Verdict;
use reporting::report_words;
use steps::Report;

pub fn ended(report: Report, completion: &mut Bytes<'_>) -> Ending {
    completion.put_outcome(report.outcome);
    Ending {
        outcome: report_words::outcome_number(report.outcome),
        number: report_words::refusal_or_message(report.outcome),
        answers: report.answers,
    }
}

fn refused(number: u64) -> Ending {
    Ending {
        outcome: 0,
        number,
        answers: 0,
    }
}

pub fn result() -> Ending {
    Ending {
        outcome: 1,
        number: 0,
        answers: 0,
    }
}

pub fn judged(verdict: Result<Verdict, u64>, completion: &mut Bytes<'_>) -> Ending {
    match verdict {
        Err(n) => refused(n),
        Ok(v) => {
            completion.put_verdict(v.accepted, v.failed_test, v.after);
            result()
        }
    }
}
