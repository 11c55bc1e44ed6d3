// A reader: lent bytes and an offset, from which numbers of 8, 16 and 32 bits are read.
#![tactic(auto)]

ghost use Rattle.std.specs.Prelude.{◌≡◌, ◌+◌, ◌≤◌, ◌<◌, length, get_or};
ghost use Rattle.numbers.specs.Number.{number_at};
ghost use Rattle.reader.specs.Whole.{Whole};

#[derive(Clone, Copy)]
pub struct Reader<'a> {
    pub bytes: &'a [u8],
    pub at: usize,
}

// The number in `width` bytes at `at`.
fn number_at(bytes: &[u8], at: usize, width: usize) -> u32
    requires { Whole bytes.now at width }
    ensures { result ≡ number_at width bytes.now at }
{
    if width == 1 {
        return numbers::get8(bytes, at) as u32;
    }
    if width == 2 {
        return numbers::get16(bytes, at) as u32;
    }
    numbers::get32(bytes, at)
}

impl<'a> Reader<'a> {
    pub fn new(bytes: &'a [u8], at: usize) -> Reader<'a>
        ensures { (result.bytes ≡ bytes.entry) × (result.at ≡ at) }
    {
        Reader { bytes, at }
    }

    // The number in `width` bytes at the reader's offset.
    pub fn number(self, width: usize) -> u32
        requires { Whole self.bytes.now self.at width }
        ensures { result ≡ number_at width self.entry.bytes.now self.entry.at }
    {
        number_at(self.bytes, self.at, width)
    }
}

// The same from a slice and an offset.
pub fn get(bytes: &[u8], at: usize, width: usize) -> u32
    requires { Whole bytes.now at width }
    ensures { result ≡ number_at width bytes.now at }
{
    Reader::new(bytes, at).number(width)
}

pub fn get8(bytes: &[u8], at: usize) -> usize
    requires { at < length bytes.now }
    ensures { (result ≡ get_or bytes.now at 0) × (result < 256) }
{
    get(bytes, at, 1) as usize
}

pub fn get16(bytes: &[u8], at: usize) -> u16
    requires { at + 2 ≤ length bytes.now }
    ensures { result ≡ number_at 2 bytes.now at }
{
    get(bytes, at, 2) as u16
}

pub fn get32(bytes: &[u8], at: usize) -> u32
    requires { at + 4 ≤ length bytes.now }
    ensures { result ≡ number_at 4 bytes.now at }
{
    get(bytes, at, 4)
}
