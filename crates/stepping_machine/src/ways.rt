// How long messages are under way on a cube: a command is read with the cost of its message, and its word is raised by the hops once it is known which
// programme runs each task.
ghost use Rattle.std.specs.Prelude.{◌≡◌, ◌≤◌, ◌<◌, length};
ghost use Rattle.stepping_machine.specs.Layout.{extent, commands};
ghost use Rattle.stepping_machine.specs.Words.{raised_word};
ghost use Rattle.stepping_machine.specs.Loads.{NotedIs, HomesIs, RaiseIs, WaysIs};

use crate::{KINDS, NEEDS, NUMBERS, SPAN, put};
use admission::view::View;

// The programme that runs each of n tasks, from its note into the words that have the needs later.
fn note_homes(w: &mut [u32], n: usize)
    requires { (n ≤ 256) × (extent ≤ length w.old) }
    ensures { NotedIs w.old w.new n }
{
    for t in 0..n {
        let home = admission::notes::home(w, t);
        put(w, NEEDS + t, home);
    }
}

// The same where the board is a cube.
pub fn homes(w: &mut [u32], v: View)
    requires { extent ≤ length w.old }
    ensures { HomesIs w.old w.new v }
{
    if v.cube {
        note_homes(w, v.tasks);
    }
}

// The word of a command of processor k, raised from that with the cost of its message.
fn raised(sheet: &[u8], w: &[u32], v: View, k: usize, x: usize) -> usize
    requires { (extent ≤ length w.now) × (x < 4294967296) }
    ensures { result ≡ raised_word sheet.now w.now v.middle k x }
{
    if x / KINDS == 2 {
        let target = workspace::total::byte(sheet, v.target_at(x / NUMBERS % SPAN));
        let home = workspace::word(w, NEEDS + target);
        let hops = sheet::hops::hops((k % 16) as u8, (home % 16) as u8) as usize;
        let cost = x % NUMBERS;
        x + cost * hops - cost
    } else {
        x
    }
}

// The words from the index a up to e.
fn raise(sheet: &[u8], w: &mut [u32], v: View, k: usize, a: usize, e: usize)
    requires { (extent ≤ length w.old) × (commands ≤ a) }
    ensures { RaiseIs sheet.now w.old w.new v.middle k a e }
{
    for i in a..e {
        let x = workspace::total::word(w, i);
        workspace::total::put(w, i, raised(sheet, w, v, k, x));
    }
}

// The same where the board is a cube.
pub fn ways(sheet: &[u8], w: &mut [u32], v: View, k: usize, a: usize, e: usize)
    requires { (extent ≤ length w.old) × (commands ≤ a) × (k < 16) }
    ensures { WaysIs sheet.now w.old w.new v k a e }
{
    if v.cube {
        raise(sheet, w, v, k, a, e);
    }
}
