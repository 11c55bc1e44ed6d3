// Runs the machine until nobody can step: each processor as far as it goes, in turn. Every order ends alike.
ghost use Rattle.stepping_machine.specs.Settling.{AdvanceIs, RoundIs, SettleIs};

use crate::steps::step;
use crate::{COUNT, LONGEST};

// Processor k as far as it goes: how many steps it made, at most as many as words have room for.
fn advance(w: &mut [u32], k: usize) -> usize
    ensures { AdvanceIs w.old w.new k result }
{
    for n in 0..LONGEST {
        if !step(w, k) {
            return n;
        }
    }
    LONGEST
}

// Each processor as far as it goes: how many steps were made.
fn round(w: &mut [u32]) -> usize
    ensures { RoundIs w.old w.new result }
{
    let count = workspace::total::word(w, COUNT).min(16);
    let mut n = 0;
    for k in 0..count {
        n += advance(w, k);
    }
    n
}

// Round after round, until nobody can step.
pub fn settle(w: &mut [u32])
    ensures { SettleIs w.old w.new }
{
    for _ in 0..LONGEST {
        if round(w) == 0 {
            return;
        }
    }
}
