// Back over the commands in the order in which the run did them: the longest way from the end of each to the finish. Words that had the clocks and the stamps have it
// of each processor, and one more of each message that is still to be received, 0 of the others.
ghost use Rattle.std.specs.Prelude.{◌≡◌, ◌≤◌, ◌<◌, length};
ghost use Rattle.stepping_machine.specs.Layout.{extent};
ghost use Rattle.drift.specs.Tracing.{longest, back_words, ran_back, sent_back, got_back, slack_slots, TraceIs, TracesIs, TracedIs};

use stepping_machine::{CLOCKS, KINDS, NEEDS, NUMBERS, SPAN, STAMPS, STORES, TASKS, UNPACKING};
use workspace::total;

// The way on from a send: that of its processor, or that of its message, which is d under way, if it is received.
fn way_on(tail: usize, d: usize, m: usize) -> usize
    requires { (d < 4294967296) × (m < 4294967296) }
    ensures { result ≡ longest tail d m }
{
    if m == 0 { tail } else { tail.max(d + m - 1) }
}

// Processor k is before the command at the index p, and its way from there.
fn go_back(w: &mut [u32], k: usize, p: usize, way: usize)
    requires { k < 256 }
    ensures { w.new ≡ back_words w.old k p way }
{
    total::put(w, k, p);
    total::put(w, CLOCKS + k, way);
}

// Before a run of task t: what is left between the claim and the way through it.
fn note_slack(w: &[u32], slots: &mut [u32], k: usize, t: usize, claim: usize)
    requires { k < 256 }
    ensures { slots.new ≡ slack_slots w.now slots.old k t claim }
{
    let way = total::word(slots, t) + total::word(w, CLOCKS + k);
    total::put(slots, t, claim.saturating_sub(way));
}

fn before_run(w: &mut [u32], k: usize, p: usize, work: usize)
    requires { (k < 256) × (work < 4294967296) }
    ensures { w.new ≡ ran_back w.old k p work }
{
    let way = total::word(w, CLOCKS + k) + work;
    go_back(w, k, p, way);
}

// Before a send of the message of word i, which is d under way.
fn before_send(w: &mut [u32], k: usize, p: usize, d: usize, i: usize)
    requires { (k < 256) × (d < 4294967296) }
    ensures { w.new ≡ sent_back w.old k p d i }
{
    let way = way_on(total::word(w, CLOCKS + k), d, total::word(w, i));
    go_back(w, k, p, way);
    total::put(w, i, 0);
}

// Before a receive of the message of word i.
fn before_receive(w: &mut [u32], k: usize, p: usize, i: usize)
    requires { k < 256 }
    ensures { w.new ≡ got_back w.old k p i }
{
    let way = total::word(w, CLOCKS + k) + total::word(w, UNPACKING);
    let m = total::word(w, i).max(way + 1);
    go_back(w, k, p, way);
    total::put(w, i, m);
}

// Back over the last command that processor k did.
fn trace_one(w: &mut [u32], slots: &mut [u32], k: usize, claim: usize)
    requires { k < 256 }
    ensures { TraceIs w.old slots.old w.new slots.new k claim }
{
    let p = total::word(w, k).saturating_sub(1);
    let x = total::word(w, p);
    let amount = x % NUMBERS;
    let number = x / NUMBERS % SPAN;
    match x / KINDS {
        1 => {
            note_slack(w, slots, k, number.saturating_sub(TASKS), claim);
            before_run(w, k, p, amount);
        }
        2 => before_send(w, k, p, amount, STAMPS + number),
        3 => before_receive(w, k, p, STAMPS + number),
        _ => before_run(w, k, p, 0),
    }
}

// Back over n steps.
fn trace_all(w: &mut [u32], order: &[u8], slots: &mut [u32], n: usize, claim: usize)
    ensures { TracesIs w.old order.now slots.old w.new slots.new n claim }
{
    for i in (0..n).rev() {
        trace_one(w, slots, total::byte(order, i), claim);
    }
}

// From the end of a run of n steps, with the ends of its tasks' runs in the slots, to the slack of each task.
pub fn trace(w: &mut [u32], order: &[u8], slots: &mut [u32], n: usize, claim: usize)
    requires { extent ≤ length w.old }
    ensures { TracedIs w.old order.now slots.old w.new slots.new n claim }
{
    workspace::clear_words(w, CLOCKS, STORES);
    workspace::clear_words(w, STAMPS, NEEDS);
    trace_all(w, order, slots, n, claim);
}
