// What is asked of a state: positions, clocks, stores and stamps, also of numbers that no processor and no link has.
ghost use Rattle.stepping_machine.specs.Represents.{LeftIs, ClockIs, PositionIs, StoreIs, StampIs};

use crate::{CLOCKS, FIRSTS, LASTS, LINKS, STAMPS, STORES};
use workspace::total;

// The commands still to do.
pub fn left(w: &[u32]) -> usize
    ensures { LeftIs w.now result }
{
    let mut n = 0;
    for k in 0..16 {
        n += total::word(w, LASTS + k).saturating_sub(total::word(w, k));
    }
    n
}

// The clock of processor k, 0 where it has no programme.
pub fn clock(w: &[u32], k: usize) -> usize
    ensures { ClockIs w.now k result }
{
    if k < 16 {
        total::word(w, CLOCKS + k)
    } else {
        0
    }
}

// The position of processor k in its programme.
pub fn position(w: &[u32], k: usize) -> usize
    ensures { PositionIs w.now k result }
{
    if k < 16 {
        total::word(w, k).saturating_sub(total::word(w, FIRSTS + k))
    } else {
        0
    }
}

// The store in use of processor k.
pub fn store(w: &[u32], k: usize) -> usize
    ensures { StoreIs w.now k result }
{
    if k < 16 {
        total::word(w, STORES + k)
    } else {
        0
    }
}

// One more than the stamp of link l, or 0 while its message is not sent.
pub fn stamp(w: &[u32], l: usize) -> usize
    ensures { StampIs w.now l result }
{
    if l < total::word(w, LINKS) {
        total::word(w, STAMPS + l)
    } else {
        0
    }
}
