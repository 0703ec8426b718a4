// A call of an entry by its kind (tests/engines/1-records.js), and what it ends in.
use crate::comparison::Ending;
use crate::endings;
use crate::line_input::Call;
use crate::readout::Bytes;
use steps::Report;

// A refusal that no entry gives; a number, as lines have it.
const UNKNOWN: u64 = 255;

// The memory that calls are over.
#[derive(Drop)]
pub struct Memory {
    pub words: [u64; 1670],
    pub strings: [u16; 8449],
}

impl Memory {
    pub fn new() -> Memory {
        let mut memory = Memory {
            words: [0; 1670],
            strings: [0; 8449],
        };
        memory.make_empty();
        memory
    }

    fn make_empty(&mut self) {
        store_write::make_empty(&mut self.words);
        text::make_empty(&mut self.strings);
    }

    // Of a longer string the first 64 code units, which are too many too.
    fn enter(&mut self, record: &[u8]) -> Report {
        let chunks = record.as_chunks().0;
        let mut units = [0; 64];
        for (unit, bytes) in units.iter_mut().zip(chunks) {
            *unit = u16::from_le_bytes(*bytes);
        }
        step::enter_string(&mut self.strings, &units[..chunks.len().min(64)])
    }

    // The page of the object whose number the record holds.
    fn page(&self, record: &[u8], output: &mut [u8]) -> Report {
        match record.first_chunk() {
            Some(bytes) => {
                let o = u64::from_le_bytes(*bytes);
                property_page::page(&self.words, &self.strings, o, output)
            }
            None => reporting::refused(UNKNOWN),
        }
    }

    // The completion is written where it is to stand.
    pub fn perform(
        &mut self,
        call: &Call<'_>,
        output: &mut [u8],
        completion: &mut Bytes<'_>,
    ) -> Ending {
        let Memory { words, strings } = self;
        let Call { record, given, .. } = *call;
        let report = match call.kind {
            0 => {
                self.make_empty();
                return endings::result();
            }
            1 => step::step(words, strings, record, given, output),
            2 => self.enter(record),
            3 => descriptor_entries::complete(words, strings, record),
            4 | 5 => {
                let extensible = call.kind == 5;
                let verdict = descriptor_entries::validate(
                    words, strings, extensible, record, given,
                );
                return endings::judged(verdict, completion);
            }
            6 => descriptor_entries::merge(words, strings, given, record),
            7 => self.page(record, output),
            _ => reporting::refused(UNKNOWN),
        };
        endings::ended(report, completion)
    }
}
