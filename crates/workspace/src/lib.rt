// The work area that a caller lends: words of 32 bits.
#![tactic(auto)]

pub mod total; // total.rt: bytes and words at any index

ghost use Rattle.std.specs.Prelude.{◌≡◌, ◌≤◌, ◌<◌, length, get_or, replicate};
ghost use Rattle.workspace.specs.Area.{ClearIs, UnitedIs};

// The least length of a work area or a machine's state, in words: `fixed` of specs/Area.
pub const LENGTH: usize = 4992;

// Where each number of the board stands and each table of the work area begins, as specs/Area.antt lays it out.
pub const TASK_COUNT: usize = 0;

pub const LINK_COUNT: usize = 1;

pub const PROCESSORS: usize = 2;

pub const LIMIT: usize = 3;

pub const UNPACKING: usize = 4;

pub const CUBE: usize = 5;

pub const TASKS: usize = 16;

pub const LINKS: usize = 272;

pub const SIZES: usize = 1296;

pub const LEVELS: usize = 2320;

pub const PAIRS: usize = 2320;

pub const HEADS: usize = 2576;

pub const NEXTS: usize = 2832;

pub const MARKS: usize = 3856;

pub const PLACES: usize = 3856;

pub const QUEUE: usize = 4112;

pub const FINISHES: usize = 4112;

pub const OPENED: usize = 4368;

pub const PLACED: usize = 4369;

// The word at i.
pub fn word(w: &[u32], i: usize) -> usize
    requires { i < length w.now }
    ensures { (result ≡ get_or w.now i 0) × (result < 4294967296) }
{
    w[i] as usize
}

// The words from a up to e become 0.
pub fn clear_words(w: &mut [u32], a: usize, e: usize)
    requires { e ≤ length w.old }
    ensures { ClearIs w.old w.new a e }
{
    for i in a..e {
        w[i] = 0;
    }
}

// A number with every bit that a word from a up to e has: it is 0 only if all of them are.
fn united(w: &[u32], a: usize, e: usize) -> u32
    requires { e ≤ length w.now }
    ensures { UnitedIs w.now a e result }
{
    let mut bits = 0;
    for i in a..e {
        bits |= w[i];
    }
    bits
}

// The words from a up to e become 0, and are written only if one of them is not: mostly the first tells.
fn clear_used(w: &mut [u32], a: usize, e: usize)
    requires { (a < e) × (e ≤ length w.old) }
    ensures { ClearIs w.old w.new a e }
{
    if w[a] != 0 || united(w, a, e) != 0 {
        clear_words(w, a, e);
    }
}

// All words become 0. Every other block is read first: a processor reads while it writes, and of a small sheet most words are 0 already.
pub fn clear(work: &mut [u32])
    ensures { work.new ≡ replicate (length work.old) 0 }
{
    let mut i = 0;
    while 256 <= work.len() - i {
        clear_words(work, i, i + 128);
        clear_used(work, i + 128, i + 256);
        i += 256;
    }
    clear_words(work, i, work.len());
}
