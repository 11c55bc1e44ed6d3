// The check's own run, as stepping_machine does it, with a note of who made each step and of when each task's run ended.
ghost use Rattle.std.specs.Prelude.{◌≡◌, ◌+◌, ◌<◌, ◌≤◌, set};
ghost use Rattle.folds.specs.Folds.{bit};
ghost use Rattle.stepping_machine.specs.Represents.{ChoiceIs};
ghost use Rattle.stepping_machine.specs.Settling.{AdvanceIs, RoundIs, SettleIs};
ghost use Rattle.drift.specs.Recording.{ends_with, NoteIs};

use stepping_machine::steps::step;
use stepping_machine::{CLOCKS, COUNT, KINDS, LONGEST, NUMBERS, SPAN, TASKS};
use workspace::total;

// Puts a byte at i, if it is there.
fn put(order: &mut [u8], i: usize, k: usize)
    requires { k < 256 }
    ensures { order.new ≡ set order.old i k }
{
    if i < order.len() {
        order[i] = k as u8;
    }
}

// Processor k did the command of the word x: of a run, when it ended.
fn note_end(w: &[u32], ends: &mut [u32], k: usize, x: usize)
    requires { k < 16 }
    ensures { ends.new ≡ ends_with w.now ends.old k x }
{
    if x / KINDS == 1 {
        let t = (x / NUMBERS % SPAN).saturating_sub(TASKS);
        total::put(ends, t, total::word(w, CLOCKS + k));
    }
}

// One step of processor k, the one behind n others.
fn note_step(w: &mut [u32], order: &mut [u8], ends: &mut [u32], k: usize, n: usize) -> bool
    requires { k < 16 }
    ensures { ChoiceIs w.old w.new k result × NoteIs w.old order.old ends.old n w.new order.new ends.new (n + bit result) }
{
    let x = total::word(w, total::word(w, k));
    if step(w, k) {
        put(order, n, k);
        note_end(w, ends, k, x);
        true
    } else {
        false
    }
}

// Processor k as far as it goes, behind n steps: how many it made.
fn advance(w: &mut [u32], order: &mut [u8], ends: &mut [u32], k: usize, n: usize) -> usize
    requires { (k < 16) × (n < 1099511627776) }
    ensures { AdvanceIs w.old w.new k result × NoteIs w.old order.old ends.old n w.new order.new ends.new (n + result) }
{
    for m in 0..LONGEST {
        if !note_step(w, order, ends, k, n + m) {
            return m;
        }
    }
    LONGEST
}

// Each processor as far as it goes, behind n steps: how many were made.
fn round(w: &mut [u32], order: &mut [u8], ends: &mut [u32], n: usize) -> usize
    requires { n < 549755813888 }
    ensures { RoundIs w.old w.new result × (result ≤ 262144) × NoteIs w.old order.old ends.old n w.new order.new ends.new (n + result) }
{
    let count = total::word(w, COUNT).min(16);
    let mut m = 0;
    for k in 0..count {
        m += advance(w, order, ends, k, n + m);
    }
    m
}

// Round after round, until nobody can step: how many steps were made.
pub fn record(w: &mut [u32], order: &mut [u8], ends: &mut [u32]) -> usize
    ensures { SettleIs w.old w.new × NoteIs w.old order.old ends.old 0 w.new order.new ends.new result }
{
    let mut n: usize = 0;
    for _ in 0..LONGEST {
        let m = round(w, order, ends, n);
        if m == 0 {
            return n;
        }
        n += m;
    }
    n
}
