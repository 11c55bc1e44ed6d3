// A bundle's commands, each copied, and behind it the releases that are due there.
ghost use Rattle.std.specs.Prelude.{◌+◌, ◌≤◌, ◌<◌, length};
ghost use Rattle.releasing.specs.Inserting.{Lay, due_bytes, FreesIs};
ghost use Rattle.releasing.specs.Queues.{Queues, BehindIs, InsertIs};

use crate::laying::{copy, put_release};
use crate::queueing::{QUEUES, THINGS};
use admission::notes::{NOTES, RELEASES};
use bundle::kinds::size_of;
use bundle::{CLAIM_SIZE, SHORT_SIZE};

// The release of thing x, if it belongs behind the command with this note.
fn put_if_due(w: &[u32], out: &mut [u8], at: usize, note: usize, x: usize) -> usize
    requires { (x < 1280) × (at < 1152921504606846976) }
    ensures { Lay out.old at (due_bytes w.now note x) out.new result × (result ≤ at + 3) }
{
    if workspace::total::word(w, RELEASES + x) == note {
        put_release(out, at, x)
    } else {
        at
    }
}

// Behind the command with this note, by its queue.
fn put_behind(w: &[u32], out: &mut [u8], start: usize, note: usize) -> usize
    requires { Queues w.now × (start < 288230376151711744) }
    ensures { BehindIs w.now note out.old start out.new result }
{
    let mut at = start;
    let mut left = workspace::total::word(w, NOTES + note % QUEUES);
    while 0 < left {
        let x = THINGS - left;
        at = put_if_due(w, out, at, note, x);
        left = workspace::total::word(w, x);
    }
    at
}

// The whole bundle with its releases, laid over `out`; its length.
pub fn insert(bundle: &[u8], w: &[u32], out: &mut [u8]) -> usize
    requires { Queues w.now × (length bundle.now < 4294967296) }
    ensures { InsertIs bundle.now w.now out.old out.new result }
{
    let end = bundle.len().saturating_sub(CLAIM_SIZE);
    let mut to = copy(bundle, 0, end.min(SHORT_SIZE), out, 0);
    let mut at: usize = SHORT_SIZE;
    let mut k: usize = 0;
    let mut r: usize = 0;
    while at < end {
        let c = bundle[at];
        let size = size_of(u16::from(c));
        to = copy(bundle, at, at + size, out, to);
        at += size;
        if c == 0x50 {
            k += 1;
        } else {
            to = put_behind(w, out, to, 4096 * (k % 16 + 1) + r);
            r += 1;
        }
    }
    copy(bundle, end, bundle.len(), out, to)
}

// Whether a bundle has a release.
pub fn has_release(bundle: &[u8]) -> bool
    ensures { FreesIs bundle.now result }
{
    let end = bundle.len().saturating_sub(CLAIM_SIZE);
    let mut at: usize = SHORT_SIZE;
    while at < end {
        let c = bundle[at];
        if c < 0x50 {
            return true;
        }
        at += size_of(u16::from(c));
    }
    false
}
