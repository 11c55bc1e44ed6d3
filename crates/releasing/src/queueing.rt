// The things to release in queues, one for the commands whose notes are alike modulo QUEUES. So what is due behind a command is found by one look.
ghost use Rattle.std.specs.Prelude.{◌≤◌, ◌<◌, length};
ghost use Rattle.admission.specs.Notes.{slots_end};
ghost use Rattle.releasing.specs.Queues.{QueueIs, QueuesIs, AllIs};

use admission::notes::{NOTES, RELEASES};

// How many queues there are, and how many things at most. The notes of the commands are used no more: their words have the first of each queue.
pub const QUEUES: usize = 2048;

pub const THINGS: usize = 1280;

// Thing x goes before its queue.
fn queue_thing(w: &mut [u32], x: usize)
    requires { (x < 1280) × (slots_end ≤ length w.old) }
    ensures { QueueIs w.old w.new x }
{
    let r = workspace::word(w, RELEASES + x) % QUEUES;
    let first = workspace::word(w, NOTES + r);
    workspace::total::put(w, x, first);
    workspace::total::put(w, NOTES + r, THINGS - x);
}

// The things from a up to e, the last first.
fn queue_things(w: &mut [u32], a: usize, e: usize)
    requires { (a ≤ e) × (e ≤ 1280) × (slots_end ≤ length w.old) }
    ensures { QueuesIs w.old w.new a e }
{
    for x in (a..e).rev() {
        queue_thing(w, x);
    }
}

// The messages of m links behind the results of n tasks.
pub fn queue_all(w: &mut [u32], n: usize, m: usize)
    requires { (n ≤ 256) × (m ≤ 1024) × (slots_end ≤ length w.old) }
    ensures { AllIs w.old w.new n m }
{
    let end = 256 + m;
    workspace::clear_words(w, NOTES, NOTES + QUEUES);
    queue_things(w, 256, end);
    queue_things(w, 0, n);
}
