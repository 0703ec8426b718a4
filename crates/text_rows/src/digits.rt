// Numbers in decimal digits and bytes in hexadecimal ones, written into lent bytes.
// Lent, since there is no heap for a String.
ghost use Rattle.std.specs.Prelude.{◌≡◌, ◌+◌, ◌*◌, ◌<◌, ◌≤◌, length};
ghost use Rattle.std.proofs.lemmas.List.Edits.{sets};
ghost use Rattle.record.specs.Characters.{decimal, digit_for, hexadecimal};

// The decimal digits of n from `at` on, where they fit, two a turn; the place after them.
fn put_digits(out: &mut [u8], at: usize, n: u64) -> usize
    requires { at + length (decimal n) ≤ length out.old }
    ensures { (out.new ≡ sets out.old at (decimal n)) × (result ≡ at + length (decimal n)) }
{
    if n < 10 {
        out[at] = (48 + n) as u8;
        return at + 1;
    }
    if n < 100 {
        out[at] = (48 + n / 10) as u8;
        out[at + 1] = (48 + n % 10) as u8;
        return at + 2;
    }
    let next = put_digits(out, at, n / 100);
    out[next] = (48 + n / 10 % 10) as u8;
    out[next + 1] = (48 + n % 10) as u8;
    next + 2
}

// The decimal digits of n from `at` on; all other bytes stay. The place after them.
// One digit, which most numbers are, takes no call.
pub fn put_decimal(out: &mut [u8], at: usize, n: u64) -> usize
    requires { at + 20 ≤ length out.old }
    ensures out_after { (out.new ≡ sets out.old at (decimal n)) × (result ≡ at + length (decimal n)) }
    ensures upper_bound { result ≤ at + 20 }
{
    if n < 10 {
        out[at] = (48 + n) as u8;
        return at + 1;
    }
    put_digits(out, at, n)
}

fn digit_for(n: u8) -> u8
    requires { n < 16 }
    ensures { result ≡ digit_for n }
{
    if n < 10 { 48 + n } else { 87 + n }
}

// Two hexadecimal digits for each byte from `at` on; all other bytes stay. The place after them.
// (The place is answered, so it is what is counted.)
pub fn put_hexadecimal(out: &mut [u8], at: usize, bytes: &[u8]) -> usize
    requires { at + 2 * length bytes.now ≤ length out.old }
    ensures { (out.new ≡ sets out.old at (hexadecimal bytes.now)) × (result ≡ at + 2 * length bytes.now) }
{
    let mut next = at;
    for b in bytes {
        out[next] = digit_for(*b / 16);
        out[next + 1] = digit_for(*b % 16);
        next += 2;
    }
    next
}
