// 6.1.7: which strings are array indices, as numbers up to 2^32 - 2.
ghost use Rattle.std.specs.Prelude.{◌≡◌, ◌≤◌, length};
ghost use Rattle.property.specs.ArrayIndex.{decimal, within_index, array_index};

// The number that the digits say, if they are digits all and the number is an index.
fn decimal_index(units: &[u16]) -> Option<u64>
    requires { length units.now ≤ 10 }
    ensures { result ≡ (within_index (decimal 0 units.now)) }
{
    let mut n: u64 = 0;
    for c in units {
        match *c {
            48..=57 => n = 10 * n + u64::from(*c - 48),
            _ => return None,
        }
    }
    if n <= 4294967294 { Some(n) } else { None }
}

// "0" alone, or up to ten digits, the first not 0, of a number up to 4294967294
pub fn array_index(units: &[u16]) -> Option<u64>
    ensures { result ≡ (array_index units.now) }
{
    if units.is_empty() {
        return None;
    }
    match units[0] {
        48 if units.len() == 1 => Some(0),
        49..=57 if units.len() <= 10 => decimal_index(units),
        _ => None,
    }
}
