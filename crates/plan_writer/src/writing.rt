// Writes the programmes of the schedule, each directly behind the one before it.
ghost use Rattle.std.specs.Prelude.{◌≡◌, true, [], ◌∷◌, ◌+◌, ◌<◌, ◌≤◌, length};
ghost use Rattle.folds.specs.Folds.{gather};
ghost use Rattle.numbers.specs.Number.{number_bytes, stored, Put};
ghost use Rattle.sheet.specs.Sheet.{task_count, link_count};
ghost use Rattle.sheet.specs.Tables.{sheet_in};
ghost use Rattle.adjacency.specs.Chains.{end_by};
ghost use Rattle.bundle.specs.Writing.{claim_bytes, bundle_bytes};
ghost use Rattle.planner.specs.Schedule.{stands};
ghost use Rattle.planner.specs.Planner.{bundle_of};
ghost use Rattle.schedule.specs.Layout.{schedule_in};
ghost use Rattle.plan_writer.specs.Bytes.{code_of, message_bytes, messages_bytes, block_bytes, turn_bytes, open_bytes};
ghost use Rattle.plan_writer.specs.Laid.{Laid};
ghost use Rattle.plan_writer.specs.Queues.{Queued};
ghost use Rattle.plan_writer.specs.Scheduled.{Scheduled};

use adjacency::End;
use bundle::{CLAIM_BYTE, OPEN_BYTE, RECEIVE_BYTE, RUN_BYTE, SEND_BYTE};
use sheet::tables;

// The command byte of a message.
fn code(e: End) -> u8
    ensures { result ≡ code_of e }
{
    match e {
        End::Source => SEND_BYTE as u8,
        End::Target => RECEIVE_BYTE as u8,
    }
}

fn put_message(out: &mut [u8], at: usize, e: End, l: usize) -> usize
    requires { (at + 3 ≤ length out.old) × (l < 65536) }
    ensures { Put out.old at (code_of e ∷ number_bytes 2 l) out.new result }
{
    out[at] = code(e);
    numbers::put16(out, at + 1, l as u16);
    at + 3
}

// Two bytes: a command, and an operand of one byte.
fn put_pair(out: &mut [u8], at: usize, command: u8, operand: usize) -> usize
    requires { (at + 2 ≤ length out.old) × (operand < 256) }
    ensures { Put out.old at (command ∷ operand ∷ []) out.new result }
{
    out[at] = command;
    out[at + 1] = operand as u8;
    at + 2
}

// The message of link l, met at its end e by a task on k. It is stored in any case, and written over where there is none: no branch depends on it, since whether two
// tasks share a processor cannot be foretold.
fn put_link(w: &[u32], out: &mut [u8], at: usize, e: End, k: usize, l: usize) -> usize
    requires scheduled { Scheduled w.now }
    requires l_bound { l < link_count (sheet_in w.now) }
    requires at_in_bounds { at + 3 ≤ length out.old }
    ensures { Laid out.old at (message_bytes (sheet_in w.now) (schedule_in w.now) e k (end_by e (sheet_in w.now) l) l) out.new result }
{
    let behind = put_message(out, at, e, l);
    if crate::is_away(w, e, k, l) {
        behind
    } else {
        at
    }
}

// The messages of t on k, by its own links, in rising link number.
fn put_messages(w: &[u32], out: &mut [u8], start: usize, e: End, k: usize, t: usize) -> usize
    requires scheduled { Scheduled w.now }
    requires t_bound { t < task_count (sheet_in w.now) }
    requires t_in_bounds { start + length (messages_bytes (sheet_in w.now) (schedule_in w.now) e k t) + 3 ≤ length out.old }
    ensures { Laid out.old start (messages_bytes (sheet_in w.now) (schedule_in w.now) e k t) out.new result }
{
    let m = tables::links(w);
    let mut at = start;
    let mut l = adjacency::first(w, e, t);
    while l < m {
        at = put_link(w, out, at, e, k, l);
        l = adjacency::next(w, e, l);
    }
    at
}

// The block of t, which stands on k: receives, run, sends.
fn put_block(w: &[u32], out: &mut [u8], at: usize, k: usize, t: usize) -> usize
    requires scheduled { Scheduled w.now }
    requires t_bound { (t < task_count (sheet_in w.now)) × (stands (schedule_in w.now) t k ≡ true) }
    requires t_in_bounds { at + length (block_bytes (sheet_in w.now) (schedule_in w.now) k t) + 3 ≤ length out.old }
    ensures { Laid out.old at (block_bytes (sheet_in w.now) (schedule_in w.now) k t) out.new result }
{
    let received = put_messages(w, out, at, End::Target, k, t);
    let ran = put_pair(out, received, RUN_BYTE as u8, t);
    put_messages(w, out, ran, End::Source, k, t)
}

// The blocks of all tasks on k, in placing order.
fn put_blocks(w: &[u32], queues: &[u32], out: &mut [u8], start: usize, k: usize) -> usize
    requires scheduled { Scheduled w.now }
    requires k_bound { (k < 16) × Queued (schedule_in w.now) 0 queues.now }
    requires k_in_bounds { start + length (gather (length (schedule_in w.now).order) (turn_bytes (sheet_in w.now) (schedule_in w.now) k)) + 3 ≤ length out.old }
    ensures { Laid out.old start (gather (length (schedule_in w.now).order) (turn_bytes (sheet_in w.now) (schedule_in w.now) k)) out.new result }
{
    let p = schedule::placed(w);
    let mut at = start;
    let mut i = workspace::word(queues, k);
    while i < p {
        at = put_block(w, out, at, k, schedule::turn(w, i));
        i = workspace::word(queues, 16 + i);
    }
    at
}

// The programme of k, at the front of what it is lent; its length.
fn put_programme(w: &[u32], queues: &[u32], out: &mut [u8], k: usize) -> usize
    requires scheduled { Scheduled w.now }
    requires k_bound { (k < 16) × Queued (schedule_in w.now) 0 queues.now }
    requires k_in_bounds { length (open_bytes (sheet_in w.now) (schedule_in w.now) k) + 3 ≤ length out.old }
    ensures { Laid out.old 0 (open_bytes (sheet_in w.now) (schedule_in w.now) k) out.new result }
{
    let at = put_pair(out, 0, OPEN_BYTE as u8, k);
    put_blocks(w, queues, out, at, k)
}

// All programmes: the rest of `out`, from the current end, is handed on for each.
fn put_each(w: &[u32], queues: &[u32], out: &mut [u8]) -> usize
    requires scheduled { Scheduled w.now }
    requires queued { Queued (schedule_in w.now) 0 queues.now }
    requires w_in_bounds { length (gather (schedule_in w.now).opened (open_bytes (sheet_in w.now) (schedule_in w.now))) + 3 ≤ length out.old }
    ensures { Laid out.old 0 (gather (schedule_in w.now).opened (open_bytes (sheet_in w.now) (schedule_in w.now))) out.new result }
{
    let p = schedule::opened(w);
    let mut at: usize = 0;
    for k in 0..p {
        at += put_programme(w, queues, &mut out[at..], k);
    }
    at
}

// All programmes, by the queues of the processors.
fn put_programmes(w: &[u32], out: &mut [u8]) -> usize
    requires scheduled { Scheduled w.now }
    requires w_in_bounds { length (gather (schedule_in w.now).opened (open_bytes (sheet_in w.now) (schedule_in w.now))) + 3 ≤ length out.old }
    ensures { Laid out.old 0 (gather (schedule_in w.now).opened (open_bytes (sheet_in w.now) (schedule_in w.now))) out.new result }
{
    let none = schedule::placed(w) as u32;
    let mut queues = [none; 272];
    crate::queues::queue_all(w, &mut queues);
    put_each(w, &queues, out)
}

fn put_claim(out: &mut [u8], at: usize, claim: usize)
    requires { (at + 5 ≤ length out.old) × (claim < 4294967296) }
    ensures { out.new ≡ stored out.old at (claim_bytes claim) }
{
    out[at] = CLAIM_BYTE as u8;
    numbers::put32(out, at + 1, claim as u32);
}

// The whole bundle at the front of `out`.
pub fn put_bundle(w: &[u32], out: &mut [u8])
    requires scheduled { Scheduled w.now }
    requires w_in_bounds { length (bundle_bytes (bundle_of (sheet_in w.now) (schedule_in w.now))) ≤ length out.old }
    ensures { out.new ≡ stored out.old 0 (bundle_bytes (bundle_of (sheet_in w.now) (schedule_in w.now))) }
{
    let claim = schedule::claim(w);
    let at = put_programmes(w, out);
    put_claim(out, at, claim);
}
