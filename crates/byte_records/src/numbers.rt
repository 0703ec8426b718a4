// Numbers in bytes, little-endian.
ghost use Rattle.std.specs.Prelude.{◌≡◌, ◌+◌, ◌*◌, ◌<◌, ◌≤◌, length};
ghost use Rattle.record.specs.Bytes.{number_at};

// The number in 2 bytes.
pub fn short_at(bytes: &[u8], at: usize) -> u64
    requires { at + 2 ≤ length bytes.now }
    ensures { (result ≡ number_at bytes.now at 2) × (result < 65536) }
{
    u64::from(unit_at(bytes, at))
}

// The code unit in 2 bytes.
pub fn unit_at(bytes: &[u8], at: usize) -> u16
    requires { at + 2 ≤ length bytes.now }
    ensures { result ≡ number_at bytes.now at 2 }
{
    u16::from_le_bytes([bytes[at], bytes[at + 1]])
}

// How many code units the bytes hold; of a longer string the first 64, which are too many too.
pub fn unit_count(bytes: &[u8]) -> usize
    ensures { (2 * result ≤ length bytes.now) × (result ≤ 64) }
{
    (bytes.len() / 2).min(64)
}

// The number in 8 bytes.
pub fn word_at(bytes: &[u8], at: usize) -> u64
    requires { at + 8 ≤ length bytes.now }
    ensures { result ≡ number_at bytes.now at 8 }
{
    let b = &bytes[at..at + 8];
    u64::from_le_bytes([b[0], b[1], b[2], b[3], b[4], b[5], b[6], b[7]])
}
