// The bits of a number: which are set, what one adds to it, and the number with one that is given.
ghost use Rattle.std.specs.Prelude.{◌≡◌, ◌<◌, ◌≤◌};
ghost use Rattle.value.specs.Bits.{bit, weight, with_bit};

// Is bit i of the word set? There is none from 64 on.
pub fn bit(word: u64, i: u64) -> bool
    ensures { result ≡ bit word i }
{
    i < 64 && (word >> i) % 2 == 1
}

// What a bit adds to its number.
pub fn weight(b: bool, n: u64) -> u64
    ensures { (result ≡ weight b n) × (result ≤ n) }
{
    if b { n } else { 0 }
}

// The word with b for its bit i.
pub fn with_bit(word: u64, i: u64, b: bool) -> u64
    requires { i < 32 }
    ensures { result ≡ with_bit word i b }
{
    let place = 1 << i;
    let next = i + 1;
    word % place + weight(b, place) + ((word >> next) << next)
}
