// Bytes in lowercase hexadecimal, and code units in bytes.
// What they are is written into the bytes of a record that the caller lends, so a yes or no is answered, and no array by value.
ghost use Rattle.std.specs.Prelude.{◌≡◌, ◌*◌, ◌<◌, ◌≤◌, length, MatchOption};
ghost use Rattle.record.specs.Characters.{digit_of, bytes_in};
ghost use Rattle.text_form.specs.Cells.{units_of, is_dash, some_bytes_in, part_in};
ghost use Rattle.text_cells.specs.Answers.{told, decoded, Within};

// The number that a digit is.
#[tactic(auto, unfolding(record::specs::Characters::digit_of))]
fn digit_of(b: u8) -> Option<u8>
    ensures { MatchOption result (digit_of b ≡ None) (λ n. (digit_of b ≡ Some n) × (n < 16)) }
{
    match b {
        b'0'..=b'9' => Some(b - b'0'),
        b'a'..=b'f' => Some(b - b'a' + 10),
        _ => None,
    }
}

// The bytes that digits are, two for each. False where one is no digit.
fn put_bytes(digits: &[u8], bytes: &mut [u8]) -> bool
    requires { length digits.now ≡ 2 * length bytes.old }
    ensures { told result bytes.new ≡ bytes_in digits.now }
{
    for (i, byte) in bytes.iter_mut().enumerate() {
        let Some(high) = digit_of(digits[2 * i]) else {
            return false;
        };
        let Some(low) = digit_of(digits[2 * i + 1]) else {
            return false;
        };
        *byte = 16 * high + low;
    }
    true
}

#[tactic(auto, using(crate::proofs::HexadecimalLaws::dash_is))]
pub fn is_dash(cell: &[u8]) -> bool
    ensures { result ≡ is_dash cell.now }
{
    matches!(cell, b"-")
}

// A part as long as `bytes`; a dash is all zeros. False where the cell is none.
pub fn put_part(cell: &[u8], bytes: &mut [u8]) -> bool
    ensures { told result bytes.new ≡ part_in (length bytes.old) cell.now }
{
    if is_dash(cell) {
        bytes.fill(0);
        return true;
    }
    cell.len() == 2 * bytes.len() && put_bytes(cell, bytes)
}

// One byte or more, at the start of `bytes`.
pub fn put_some(cell: &[u8], bytes: &mut [u8]) -> Option<usize>
    requires { length cell.now ≤ 2 * length bytes.old }
    ensures { (decoded result bytes.new ≡ some_bytes_in cell.now) × Within result (length bytes.old) }
{
    if cell.is_empty() || cell.len() % 2 == 1 {
        return None;
    }
    let size = cell.len() / 2;
    if put_bytes(cell, &mut bytes[..size]) {
        return Some(size);
    }
    None
}

// The code units that bytes are, the high byte first.
pub fn put_units(bytes: &[u8], units: &mut [u16])
    requires { length bytes.now ≡ 2 * length units.old }
    ensures { units_of bytes.now ≡ Some units.new }
{
    for (i, unit) in units.iter_mut().enumerate() {
        *unit = u16::from_be_bytes([bytes[2 * i], bytes[2 * i + 1]]);
    }
}
