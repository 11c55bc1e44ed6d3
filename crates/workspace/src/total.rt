// Access that is total: a byte or a word at any index, 0 past the end, and a store there changes nothing. Nothing is asked of the memory, so that
// code over it is safe on any that is lent.
ghost use Rattle.std.specs.Prelude.{◌≡◌, ◌%◌, ◌<◌, get_or, set};

// The byte at i.
pub fn byte(b: &[u8], i: usize) -> usize
    ensures { (result ≡ get_or b.now i 0) × (result < 256) }
{
    if i < b.len() { usize::from(b[i]) } else { 0 }
}

// The word at i.
pub fn word(w: &[u32], i: usize) -> usize
    ensures { (result ≡ get_or w.now i 0) × (result < 4294967296) }
{
    if i < w.len() { w[i] as usize } else { 0 }
}

// The low 32 bits of x.
pub fn narrow(x: usize) -> u32
    ensures { result ≡ x % 4294967296 }
{
    (x % 4294967296) as u32
}

// Puts the low 32 bits of x at i.
pub fn put(w: &mut [u32], i: usize, x: usize)
    ensures { w.new ≡ set w.old i (x % 4294967296) }
{
    if i < w.len() {
        w[i] = narrow(x);
    }
}
