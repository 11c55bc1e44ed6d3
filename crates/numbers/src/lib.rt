// Unsigned numbers of 8, 16 and 32 bits in a slice of bytes, lowest byte first.
#![tactic(auto)]

ghost use Rattle.std.specs.Prelude.{◌≡◌, ◌+◌, ◌≤◌, ◌<◌, length, get_or};
ghost use Rattle.numbers.specs.Number.{number_at, number_bytes, stored};

// The byte at `at`.
pub fn get8(s: &[u8], at: usize) -> usize
    requires { at < length s.now }
    ensures { (result ≡ get_or s.now at 0) × (result < 256) }
{
    usize::from(s[at])
}

pub fn get16(s: &[u8], at: usize) -> u16
    requires { at + 2 ≤ length s.now }
    ensures { result ≡ number_at 2 s.now at }
{
    u16::from(s[at]) + 256 * u16::from(s[at + 1])
}

pub fn get32(s: &[u8], at: usize) -> u32
    requires { at + 4 ≤ length s.now }
    ensures { result ≡ number_at 4 s.now at }
{
    u32::from(get16(s, at)) + 65536 * u32::from(get16(s, at + 2))
}

pub fn put16(s: &mut [u8], at: usize, v: u16)
    requires { at + 2 ≤ length s.old }
    ensures { s.new ≡ stored s.old at (number_bytes 2 v) }
{
    s[at] = (v % 256) as u8;
    s[at + 1] = (v / 256 % 256) as u8;
}

pub fn put32(s: &mut [u8], at: usize, v: u32)
    requires { at + 4 ≤ length s.old }
    ensures { s.new ≡ stored s.old at (number_bytes 4 v) }
{
    put16(s, at, (v % 65536) as u16);
    put16(s, at + 2, (v / 65536) as u16);
}
