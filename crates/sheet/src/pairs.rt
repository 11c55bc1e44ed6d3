// A bit of the work area for each pair of tasks: whether a link joins them.
ghost use Rattle.std.specs.Prelude.{◌≡◌, false, ◌+◌, ◌*◌, ◌^◌, ◌<◌, ◌≤◌, length};
ghost use Rattle.workspace.specs.Area.{fixed, pairs_at};
ghost use Rattle.sheet.specs.Tables.{pair_in, pair_words, Blanked};

use workspace::PAIRS;

fn power(j: u32) -> u32
    requires { j < 32 }
    ensures { result ≡ 2 ^ j }
{
    1 << j
}

// Whether the bit of a and b is set.
pub fn joined(w: &[u32], a: usize, b: usize) -> bool
    requires { (fixed ≤ length w.now) × (a < 256) × (b < 256) }
    ensures { result ≡ pair_in w.now a b }
{
    let i = PAIRS + (8 * a + b / 32);
    let j = (b % 32) as u32;
    (w[i] >> j) % 2 == 1
}

// Sets the bit of a and b, which is not set.
pub fn join(w: &mut [u32], a: usize, b: usize)
    requires { (fixed ≤ length w.old) × (a < 256) × (b < 256) × (pair_in w.old a b ≡ false) }
    ensures { w.new ≡ pair_words w.old a b }
{
    let i = PAIRS + (8 * a + b / 32);
    let j = (b % 32) as u32;
    w[i] += power(j);
}

// No pair of the first n tasks is joined.
pub fn blank(w: &mut [u32], n: usize)
    requires { (fixed ≤ length w.old) × (n ≤ 256) }
    ensures { Blanked (pairs_at + 8 * n) w.old w.new }
{
    workspace::clear_words(w, PAIRS, PAIRS + 8 * n);
}
