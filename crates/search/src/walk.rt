// The walk over all arrangements that are looked at: each next task opens a programme or joins the last one.
ghost use Rattle.std.specs.Prelude.{◌≡◌, ◌+◌, ◌<◌};
ghost use Rattle.least.specs.Pruned.{looked_from, looked_at};
ghost use Rattle.search.specs.Keeping.{Right, FoldIs};
ghost use Rattle.search.specs.Walking.{Ready, begun, Begins, opened_from, joined_from, LateIs};

use crate::choosing::{Best, consider};
use crate::codes::stands;
use crate::walking::{Begun, joined, may_join, may_open, opened};
use admission::view::View;

// Whether what was found claims less than so much work takes.
fn is_late(best: Option<Best>, work: usize) -> bool
    ensures { LateIs best work result }
{
    best.is_some_and(|b| b.claim < work)
}

// All that `left` more tasks can make of b.
#[cycle(branch_joining_opening_walk)]
pub fn walk(
    sheet: &[u8],
    w: &mut [u32],
    buf: &mut [u8],
    other: &mut [u8],
    v: View,
    left: usize,
    b: Begun,
    best: Option<Best>,
) -> Option<Best>
    requires { Ready sheet.now w.old buf.old other.old v × Begins sheet.now v b × (b.tasks + left ≡ v.tasks) × Right v best }
    ensures { FoldIs sheet.now v (λ s. looked_from s left (begun b)) best result }
{
    if left == 0 {
        return consider(sheet, w, buf, other, v, b.code, b.programmes, best);
    }
    let mut k = best;
    for t in 0..v.tasks {
        k = branch(sheet, w, buf, other, v, left - 1, b, t, k);
    }
    k
}

// The same with t as the next task, and `left` more behind it.
#[cycle(branch_joining_opening_walk)]
fn branch(
    sheet: &[u8],
    w: &mut [u32],
    buf: &mut [u8],
    other: &mut [u8],
    v: View,
    left: usize,
    b: Begun,
    t: usize,
    best: Option<Best>,
) -> Option<Best>
    requires { Ready sheet.now w.old buf.old other.old v × Begins sheet.now v b × (b.tasks + left + 1 ≡ v.tasks) × (t < v.tasks) × Right v best }
    ensures { FoldIs sheet.now v (λ s. looked_at s left (begun b) t) best result }
{
    if stands(b.code, b.tasks, t) {
        return best;
    }
    let k = opening(sheet, w, buf, other, v, left, b, t, best);
    joining(sheet, w, buf, other, v, left, b, t, k)
}

// t opens a programme.
#[cycle(branch_joining_opening_walk)]
fn opening(
    sheet: &[u8],
    w: &mut [u32],
    buf: &mut [u8],
    other: &mut [u8],
    v: View,
    left: usize,
    b: Begun,
    t: usize,
    best: Option<Best>,
) -> Option<Best>
    requires { Ready sheet.now w.old buf.old other.old v × Begins sheet.now v b × (b.tasks + left + 1 ≡ v.tasks) × (t < v.tasks) × Right v best }
    ensures { FoldIs sheet.now v (λ s. opened_from s left (begun b) t) best result }
{
    let a = opened(sheet, v, b, t);
    if !may_open(sheet, v, b, t, a) {
        best
    } else if is_late(best, a.work) {
        best
    } else {
        walk(sheet, w, buf, other, v, left, a, best)
    }
}

// t joins the last programme.
#[cycle(branch_joining_opening_walk)]
fn joining(
    sheet: &[u8],
    w: &mut [u32],
    buf: &mut [u8],
    other: &mut [u8],
    v: View,
    left: usize,
    b: Begun,
    t: usize,
    best: Option<Best>,
) -> Option<Best>
    requires { Ready sheet.now w.old buf.old other.old v × Begins sheet.now v b × (b.tasks + left + 1 ≡ v.tasks) × (t < v.tasks) × Right v best }
    ensures { FoldIs sheet.now v (λ s. joined_from s left (begun b) t) best result }
{
    if b.programmes == 0 {
        return best;
    }
    let a = joined(sheet, v, b, t);
    if !may_join(sheet, v, b, t, a) {
        best
    } else if is_late(best, a.work) {
        best
    } else {
        walk(sheet, w, buf, other, v, left, a, best)
    }
}
