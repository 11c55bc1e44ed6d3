// The lines of the listing, counted and put into the output, each directly behind the one before.
ghost use Rattle.std.specs.Prelude.{◌≡◌, ◌+◌, ◌≤◌, ◌<◌, length};
ghost use Rattle.folds.specs.Folds.{gather};
ghost use Rattle.sheet.specs.Sheet.{task_count};
ghost use Rattle.sheet.specs.Tables.{sheet_in, Loaded};
ghost use Rattle.planner.specs.Planner.{running};
ghost use Rattle.schedule.specs.Layout.{schedule_in};
ghost use Rattle.listing.specs.Listing.{plan_line, task_line, refusal_line, schedule_lines};
ghost use Rattle.numbers.specs.Number.{Put};
ghost use Rattle.listing_writer.specs.Lines.{Marked, Standing};

use crate::fields::{digits, put_decimal, put_field, put_fields, put_word};
use sheet::tables;

// The processors: 1 for each on which a task stands.
#[derive(Clone, Copy)]
pub struct Runs {
    pub at: [u32; 16],
}

fn runs_of(w: &[u32]) -> Runs
    requires loaded { Loaded w.now }
    requires standing { Standing (sheet_in w.now) (schedule_in w.now) }
    ensures { Marked (schedule_in w.now) (task_count (sheet_in w.now)) result }
{
    let n = tables::tasks(w);
    let mut r = Runs { at: [0; 16] };
    for t in 0..n {
        let k = schedule::place(w, t);
        r.at[k] = 1;
    }
    r
}

// How many processors run a task.
fn running(w: &[u32]) -> usize
    requires loaded { Loaded w.now }
    requires standing { Standing (sheet_in w.now) (schedule_in w.now) }
    ensures { (result ≡ running (sheet_in w.now) (schedule_in w.now)) × (result ≤ 16) }
{
    let runs = runs_of(w);
    let n = tables::processors(w);
    let mut found: usize = 0;
    for k in 0..n {
        found += runs.at[k] as usize;
    }
    found
}

// How long the first line is.
fn plan_length(w: &[u32]) -> usize
    requires loaded { Loaded w.now }
    requires standing { Standing (sheet_in w.now) (schedule_in w.now) }
    ensures { (result ≡ length (plan_line (sheet_in w.now) (schedule_in w.now))) × (result ≤ 47) }
{
    7 + digits(running(w)) + digits(schedule::claim(w))
}

// How long the line of task t is.
fn task_length(w: &[u32], t: usize) -> usize
    requires loaded { Loaded w.now }
    requires t_bound { t < task_count (sheet_in w.now) }
    ensures { (result ≡ length (task_line (schedule_in w.now) t)) × (result ≤ 84) }
{
    let k = digits(schedule::place(w, t));
    let a = digits(schedule::start(w, t));
    let b = digits(schedule::finish(w, t));
    4 + digits(t) + k + a + b
}

// How long all lines of the schedule are.
pub fn needed(w: &[u32]) -> usize
    requires loaded { Loaded w.now }
    requires standing { Standing (sheet_in w.now) (schedule_in w.now) }
    ensures { (result ≡ length (schedule_lines (sheet_in w.now) (schedule_in w.now))) × (result ≤ 21551) }
{
    let tasks = tables::tasks(w);
    let mut n = plan_length(w);
    for t in 0..tasks {
        n += task_length(w, t);
    }
    n
}

// Enough for all lines: 29 bytes each, where a task has 3 digits, a processor 2 and a time 10.
pub fn most(w: &[u32]) -> usize
    requires loaded { Loaded w.now }
    requires standing { Standing (sheet_in w.now) (schedule_in w.now) }
    ensures { (length (schedule_lines (sheet_in w.now) (schedule_in w.now)) ≤ result) × (result ≤ 7453) }
{
    29 * (tables::tasks(w) + 1)
}

// The first line, at the front.
fn put_plan(w: &[u32], out: &mut [u8]) -> usize
    requires loaded { Loaded w.now }
    requires standing { Standing (sheet_in w.now) (schedule_in w.now) }
    requires w_in_bounds { length (plan_line (sheet_in w.now) (schedule_in w.now)) ≤ length out.old }
    ensures { Put out.old 0 (plan_line (sheet_in w.now) (schedule_in w.now)) out.new result }
{
    let found = running(w);
    let claim = schedule::claim(w);
    let at = put_word(out, 0, b"PLAN");
    put_fields(out, at, found, claim)
}

// The line of task t, at `at`.
fn put_task(w: &[u32], t: usize, out: &mut [u8], at: usize) -> usize
    requires loaded { Loaded w.now }
    requires t_bound { t < task_count (sheet_in w.now) }
    requires t_in_bounds { at + length (task_line (schedule_in w.now) t) ≤ length out.old }
    ensures { Put out.old at (task_line (schedule_in w.now) t) out.new result }
{
    let k = schedule::place(w, t);
    let start = schedule::start(w, t);
    let finish = schedule::finish(w, t);
    let next = put_decimal(out, at, t);
    let last = put_field(out, next, k);
    put_fields(out, last, start, finish)
}

// The lines of all tasks, from `at` on.
fn put_tasks(w: &[u32], out: &mut [u8], at: usize) -> usize
    requires loaded { Loaded w.now }
    requires w_in_bounds { at + length (gather (task_count (sheet_in w.now)) (task_line (schedule_in w.now))) ≤ length out.old }
    ensures { Put out.old at (gather (task_count (sheet_in w.now)) (task_line (schedule_in w.now))) out.new result }
{
    let n = tables::tasks(w);
    let mut end = at;
    for t in 0..n {
        end = put_task(w, t, out, end);
    }
    end
}

// All lines of the schedule.
pub fn put_schedule(w: &[u32], out: &mut [u8]) -> usize
    requires loaded { Loaded w.now }
    requires standing { Standing (sheet_in w.now) (schedule_in w.now) }
    requires w_in_bounds { length (schedule_lines (sheet_in w.now) (schedule_in w.now)) ≤ length out.old }
    ensures { Put out.old 0 (schedule_lines (sheet_in w.now) (schedule_in w.now)) out.new result }
{
    let at = put_plan(w, out);
    put_tasks(w, out, at)
}

// How long the line of a refusal is.
pub fn refusal_length(number: usize, place: usize) -> usize
    ensures { (result ≡ length (refusal_line number place)) × (result ≤ 50) }
{
    10 + digits(number) + digits(place)
}

// The line of a refusal, at the front.
pub fn put_refusal(out: &mut [u8], number: usize, place: usize) -> usize
    requires { length (refusal_line number place) ≤ length out.old }
    ensures { Put out.old 0 (refusal_line number place) out.new result }
{
    let at = put_word(out, 0, b"REFUSED");
    put_fields(out, at, number, place)
}
