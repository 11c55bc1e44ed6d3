// 37, by the notes of a bundle's commands, where 26 and 31 to 33 do not apply. A thing may be given back behind the last command of its programme that gets or uses it.
ghost use Rattle.std.specs.Prelude.{◌≡◌, ◌+◌, ◌≤◌, ◌<◌, length, eqb};
ghost use Rattle.folds.specs.Folds.{pick};
ghost use Rattle.admission.specs.Notes.{slots_end};
ghost use Rattle.admission.specs.Lasts.{LastIs, LastsIs, CopyIs, free_at, WrongIs};

use crate::notes::{DISCARDS, NOTES, RELEASES, SENDS};
use crate::rules::precedes;
use crate::view::View;
use bundle::kinds::size_of;
use bundle::{CLAIM_SIZE, SHORT_SIZE};

// By a test, one of two numbers.
fn either(test: bool, a: usize, b: usize) -> usize
    ensures { result ≡ pick test a b }
{
    if test { a } else { b }
}

// The run of each task is the first command that its result may be given back behind.
fn copy_runs(w: &mut [u32], n: usize)
    requires { (n ≤ 256) × (slots_end ≤ length w.old) }
    ensures { CopyIs w.old w.new n }
{
    for t in 0..n {
        let x = workspace::word(w, NOTES + t);
        workspace::total::put(w, RELEASES + t, x);
    }
}

// Link l: its source's result is used by its target's run, or by its send; its message, if it has one, by its target's run.
fn keep_link(sheet: &[u8], w: &mut [u32], v: View, l: usize)
    requires { (l < 1024) × (slots_end ≤ length w.old) }
    ensures { LastIs sheet.now w.old w.new v l }
{
    let source = workspace::total::byte(sheet, v.source_at(l));
    let target = workspace::total::byte(sheet, v.target_at(l));
    let a = workspace::word(w, NOTES + source);
    let t = workspace::word(w, NOTES + target);
    let sent = workspace::word(w, SENDS + l);
    let inside = a / 4096 == t / 4096;
    let old = workspace::word(w, RELEASES + source);
    let last = old.max(either(inside, t, sent));
    workspace::total::put(w, RELEASES + source, last);
    workspace::total::put(w, DISCARDS + l, either(inside, 0, t));
}

// The last use of every result and message, by its note.
pub fn keep_lasts(sheet: &[u8], w: &mut [u32], v: View)
    requires { slots_end ≤ length w.old }
    ensures { LastsIs sheet.now w.old w.new v }
{
    copy_runs(w, v.tasks);
    for l in 0..v.links {
        keep_link(sheet, w, v, l);
    }
}

// The word of what the release at `at` gives back.
fn freed_at(bundle: &[u8], at: usize) -> usize
    requires { at + 3 ≤ length bundle.now }
    ensures { (result ≡ free_at bundle.now at) × (result < 131072) }
{
    if bundle[at] == 0x46 {
        RELEASES + usize::from(bundle[at + 1])
    } else {
        DISCARDS + usize::from(numbers::get16(bundle, at + 1))
    }
}

// 37: the offset of the first wrong release. What was given back is held no more.
pub fn wrong_release(sheet: &[u8], bundle: &[u8], w: &mut [u32], v: View) -> Option<usize>
    requires { slots_end ≤ length w.old }
    ensures { WrongIs sheet.now bundle.now w.old w.new v result }
{
    keep_lasts(sheet, w, v);
    let end = bundle.len().saturating_sub(CLAIM_SIZE);
    let mut at: usize = SHORT_SIZE;
    let mut k: usize = 0;
    let mut r: usize = 0;
    while at < end {
        let c = bundle[at];
        let size = size_of(u16::from(c));
        if c == 0x50 {
            k += 1;
            at += size;
        } else if c < 0x50 {
            let x = freed_at(bundle, at);
            if precedes(workspace::total::word(w, x), 4096 * (k % 16 + 1) + r) {
                workspace::total::put(w, x, 0);
                at += size;
            } else {
                return Some(at);
            }
        } else {
            r += 1;
            at += size;
        }
    }
    None
}
