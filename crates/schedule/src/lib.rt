// The schedule under construction in the work area: accessors that speak of it, and the store that places a task.
#![tactic(auto)]

ghost use Rattle.std.specs.Prelude.{◌≡◌, ◌+◌, ◌<◌, ◌≤◌, get_or, length};
ghost use Rattle.workspace.specs.Area.{fixed, placed_at};
ghost use Rattle.sheet.specs.Sheet.{task_count};
ghost use Rattle.sheet.specs.Tables.{sheet_in, Loaded};
ghost use Rattle.graph.specs.Graph.{level};
ghost use Rattle.levelling.specs.Found.{Levelled};
ghost use Rattle.planner.specs.Schedule.{place_of, start_of, finish_of};
ghost use Rattle.planner.specs.Planner.{claim_of};
ghost use Rattle.schedule.specs.Layout.{schedule_in, place_words, turn_words, put_words};

use sheet::tables;
use workspace::{FINISHES, LEVELS, OPENED, PLACED, PLACES};

// The processor of t, or 16 while it is not placed.
pub fn place(w: &[u32], t: usize) -> usize
    requires loaded { Loaded w.now }
    requires t_bound { t < task_count (sheet_in w.now) }
    ensures { (result ≡ place_of (schedule_in w.now) t) × (result < 4294967296) }
{
    workspace::word(w, PLACES + t) % 65536
}

pub fn start(w: &[u32], t: usize) -> usize
    requires loaded { Loaded w.now }
    requires t_bound { t < task_count (sheet_in w.now) }
    ensures { (result ≡ start_of (schedule_in w.now) t) × (result < 4294967296) }
{
    finish(w, t).saturating_sub(tables::work(w, t))
}

pub fn finish(w: &[u32], t: usize) -> usize
    requires loaded { Loaded w.now }
    requires t_bound { t < task_count (sheet_in w.now) }
    ensures { (result ≡ finish_of (schedule_in w.now) t) × (result < 4294967296) }
{
    workspace::word(w, FINISHES + t)
}

// The task that was placed at turn i.
pub fn turn(w: &[u32], i: usize) -> usize
    requires loaded { Loaded w.now }
    requires i_bound { (i < 256) × (i < length (schedule_in w.now).order) }
    ensures { (result ≡ get_or (schedule_in w.now).order i 0) × (result < 4294967296) }
{
    workspace::word(w, PLACES + i) / 65536
}

pub fn opened(w: &[u32]) -> usize
    requires loaded { Loaded w.now }
    requires w_bound { (schedule_in w.now).opened ≤ 16 }
    ensures { (result ≡ (schedule_in w.now).opened) × (result ≤ 16) }
{
    workspace::word(w, OPENED)
}

// How many tasks are placed.
pub fn placed(w: &[u32]) -> usize
    requires { Loaded w.now }
    ensures { (result ≡ length (schedule_in w.now).order) × (result ≡ get_or w.now placed_at 0) × (result < 4294967296) }
{
    workspace::word(w, PLACED)
}

pub fn level_of(w: &[u32], t: usize) -> usize
    requires loaded { Loaded w.now }
    requires levelled { Levelled (sheet_in w.now) w.now }
    requires t_bound { t < task_count (sheet_in w.now) }
    ensures { (result ≡ level (sheet_in w.now) t) × (result < 4294967296) }
{
    workspace::word(w, LEVELS + t)
}

// t is on k.
fn put_place(w: &mut [u32], t: usize, k: usize)
    requires { (fixed ≤ length w.old) × (t < 256) × (k < 16) }
    ensures { w.new ≡ place_words w.old t k }
{
    let x = workspace::word(w, PLACES + t);
    w[PLACES + t] = (k + 65536 * (x / 65536)) as u32;
}

// t is the task of turn n.
fn put_turn(w: &mut [u32], n: usize, t: usize)
    requires { (fixed ≤ length w.old) × (n < 256) × (t < 256) }
    ensures { w.new ≡ turn_words w.old n t }
{
    let x = workspace::word(w, PLACES + n);
    w[PLACES + n] = (x % 65536 + 65536 * t) as u32;
}

// t on k until it finishes, as the task after the n that are placed; so many processors are open now.
pub fn put(w: &mut [u32], t: usize, k: usize, finish: usize, n: usize, opened: usize)
    requires fixed_in_bounds { fixed ≤ length w.old }
    requires t_bound { (t < 256) × (k < 16) × (finish < 4294967296) × (n < 256) × (opened ≤ 16) }
    ensures { w.new ≡ put_words w.old t k finish n opened }
{
    put_place(w, t, k);
    put_turn(w, n, t);
    w[FINISHES + t] = finish as u32;
    w[PLACED] = (n + 1) as u32;
    w[OPENED] = opened as u32;
}

// The claim: the latest finish.
pub fn claim(w: &[u32]) -> usize
    requires { Loaded w.now }
    ensures { (result ≡ claim_of (sheet_in w.now) (schedule_in w.now)) × (result < 4294967296) }
{
    let n = tables::tasks(w);
    let mut last: usize = 0;
    for t in 0..n {
        last = last.max(finish(w, t));
    }
    last
}
