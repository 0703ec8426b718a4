// Lines of hexadecimal digits from the standard input.
use std::io;
use std::io::{ErrorKind, Read};

// The parts of a line: what is called, how much room there is for output, the record, what is given with it, and what is expected.
// (What is called is a number of the format of these lines.)
#[derive(Clone, Copy)]
pub struct Call<'a> {
    pub kind: u8,
    pub room: u16,
    pub record: &'a [u8],
    pub given: &'a [u8],
    pub expected: &'a [u8],
}

fn value_of(digit: u8) -> Option<u8> {
    match digit {
        b'0'..=b'9' => Some(digit - b'0'),
        b'a'..=b'f' => Some(digit - b'a' + 10),
        _ => None,
    }
}

// Each two digits as a byte.
fn decode(digits: &[u8], bytes: &mut [u8]) -> io::Result<()> {
    for (byte, [high, low]) in bytes.iter_mut().zip(digits.as_chunks::<2>().0) {
        let (Some(high), Some(low)) = (value_of(*high), value_of(*low)) else {
            return Err(io::Error::from(ErrorKind::InvalidData));
        };
        *byte = high << 4 | low;
    }
    Ok(())
}

// The call of the next line, if there is one. A line that is cut off is an unexpected end, and another broken one is invalid data.
pub fn read_call<'a>(
    input: &mut impl Read,
    digits: &mut [u8; 65536],
    bytes: &'a mut [u8; 32768],
) -> io::Result<Option<Call<'a>>> {
    let mut head_digits = [0; 18];
    let size = input.read(&mut head_digits)?;
    if size == 0 {
        return Ok(None);
    }
    input.read_exact(&mut head_digits[size..])?;
    let mut head = [0; 9];
    decode(&head_digits, &mut head)?;
    let short = |at: usize| u16::from_le_bytes([head[at], head[at + 1]]);
    let record_end = usize::from(short(3));
    let given_end = record_end + usize::from(short(5));
    let end = given_end + usize::from(short(7));
    let Some(digits) = digits.get_mut(..2 * end + 1) else {
        return Err(io::Error::from(ErrorKind::InvalidData));
    };
    input.read_exact(digits)?;
    let bytes = &mut bytes[..end];
    decode(digits, bytes)?;
    Ok(Some(Call {
        kind: head[0],
        room: short(1),
        record: &bytes[..record_end],
        given: &bytes[record_end..given_end],
        expected: &bytes[given_end..],
    }))
}
