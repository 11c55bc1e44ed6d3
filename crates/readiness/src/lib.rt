// Who is ready, who partly, when messages are there, and who goes first, by a table of keys that each placing brings up to date.
#![tactic(auto)]

pub mod keys; // keys.rt: the table of keys, with the greatest of each block

ghost use Rattle.std.specs.Prelude.{◌≡◌, ◌+◌, ◌<◌, ◌≤◌, length, replicate};
ghost use Rattle.folds.specs.Folds.{pick};
ghost use Rattle.readiness.specs.Keys.{Blocked};
ghost use Rattle.workspace.specs.Found.{found_of, Below};
ghost use Rattle.sheet.specs.Sheet.{task_count};
ghost use Rattle.sheet.specs.Tables.{sheet_in, Loaded};
ghost use Rattle.graph.specs.Graph.{level};
ghost use Rattle.planner.specs.Schedule.{latest_start, placed};
ghost use Rattle.planner.specs.Placing.{ready, partly_ready, arrival, priority, ready_arrival, first_ready, first_partly_ready};
ghost use Rattle.levelling.specs.Found.{Levelled};
ghost use Rattle.schedule.specs.Layout.{schedule_in};
ghost use Rattle.adjacency.specs.Chains.{Chained};
ghost use Rattle.adjacency.specs.declared.End.TheVariants.{Source, Target};
ghost use Rattle.arrivals.specs.Layout.{kept_length};
ghost use Rattle.arrivals.specs.Kept.{known, Single, Gathered, Counted, Kept, Arrived};
ghost use Rattle.arrivals.specs.Steps.{up_to, Beside, Landed};
ghost use Rattle.arrivals.specs.Lanes.{Early};
ghost use Rattle.readiness.specs.Keyed.{key_of, task_of, Renewed, Waiting, Keyed, KeyedBeside};

use adjacency::End;
use sheet::tables;

fn is_placed(w: &[u32], t: usize) -> bool
    requires loaded { Loaded w.now }
    requires t_bound { t < task_count (sheet_in w.now) }
    ensures { result ≡ placed (schedule_in w.now) t }
{
    schedule::place(w, t) < 16
}

// When the messages to t from placed tasks are all there.
pub fn arrival_of(w: &[u32], kept: &[u32], t: usize) -> usize
    requires { Arrived w.now kept.now t }
    ensures { (result ≡ arrival (sheet_in w.now) (schedule_in w.now) t) × (result < 4294967296) }
{
    workspace::word(kept, arrivals::ARRIVALS + t)
}

fn is_ready(w: &[u32], kept: &[u32], t: usize) -> bool
    requires { Arrived w.now kept.now t }
    ensures { result ≡ ready (sheet_in w.now) (schedule_in w.now) t }
{
    !is_placed(w, t) && workspace::word(kept, arrivals::SEEN + t) == workspace::word(kept, t)
}

fn is_partly_ready(w: &[u32], kept: &[u32], t: usize) -> bool
    requires { Arrived w.now kept.now t }
    ensures { result ≡ partly_ready (sheet_in w.now) (schedule_in w.now) t }
{
    let x = workspace::word(kept, arrivals::SEEN + t);
    let n = workspace::word(kept, t);
    !is_placed(w, t) && 0 < x && x < n
}

pub fn priority_of(w: &[u32], kept: &[u32], t: usize) -> usize
    requires arrived { Arrived w.now kept.now t }
    requires levelled { Levelled (sheet_in w.now) w.now }
    ensures { (result ≡ priority (sheet_in w.now) (schedule_in w.now) t) × (result < 8589934592) }
{
    arrival_of(w, kept, t) + schedule::level_of(w, t)
}

// A of a ready t: when it has unpacked all its messages on a fresh processor, which is its arrival where unpacking takes no time.
pub fn ready_arrival(w: &[u32], kept: &[u32], t: usize) -> usize
    requires arrived { Arrived w.now kept.now t }
    requires chained { Chained Target (sheet_in w.now) w.now × Early (schedule_in w.now) }
    ensures { (result ≡ ready_arrival (sheet_in w.now) (schedule_in w.now) t) × (result ≤ latest_start) }
{
    let unpacking = tables::unpacking(w);
    if unpacking == 0 {
        arrival_of(w, kept, t)
    } else {
        arrivals::fresh_start(w, t, unpacking)
    }
}

// The key of t by its arrival.
fn key_of(w: &[u32], t: usize, a: usize) -> u64
    requires loaded { Loaded w.now × Levelled (sheet_in w.now) w.now }
    requires t_bound { (t < task_count (sheet_in w.now)) × (a ≤ latest_start) }
    ensures { result ≡ key_of (sheet_in w.now) (a + level (sheet_in w.now) t) t }
{
    let v = schedule::level_of(w, t);
    (((a + v) * 33554432 + v + 1) * 256 + (255 - t)) as u64
}

// The key where the test holds, and 0 elsewhere.
fn key_if(test: bool, key: u64) -> u64
    ensures { result ≡ pick test key 0 }
{
    if test { key } else { 0 }
}

// The keys of t as it stands now.
fn renew_task(w: &[u32], kept: &[u32], q: &mut [u64], t: usize)
    requires arrived { Arrived w.now kept.now t }
    requires levelled { Levelled (sheet_in w.now) w.now }
    requires chained { Chained Target (sheet_in w.now) w.now × Early (schedule_in w.now) }
    requires blocked { Blocked q.old }
    ensures { Renewed (sheet_in w.now) (schedule_in w.now) q.old q.new t }
{
    let a = ready_arrival(w, kept, t);
    let ready = key_if(is_ready(w, kept, t), key_of(w, t, a));
    let b = arrival_of(w, kept, t);
    let partly = key_if(is_partly_ready(w, kept, t), key_of(w, t, b));
    keys::put(q, t, ready);
    keys::put(q, 256 + t, partly);
}

// The keys of t, to which a link from the task just placed leads: it was not ready before, and its key only rises.
fn renew_target(w: &[u32], kept: &[u32], q: &mut [u64], t: usize)
    requires arrived { Arrived w.now kept.now t }
    requires levelled { Levelled (sheet_in w.now) w.now }
    requires chained { Chained Target (sheet_in w.now) w.now × Early (schedule_in w.now) }
    requires blocked { Blocked q.old }
    requires waiting { Waiting (sheet_in w.now) (schedule_in w.now) q.old t }
    ensures { Renewed (sheet_in w.now) (schedule_in w.now) q.old q.new t }
{
    if workspace::word(kept, arrivals::SEEN + t) == workspace::word(kept, t) {
        let a = ready_arrival(w, kept, t);
        let key = key_of(w, t, a);
        keys::raise(q, t, key);
        keys::put(q, 256 + t, 0);
    } else {
        let a = arrival_of(w, kept, t);
        let key = key_of(w, t, a);
        keys::raise(q, 256 + t, key);
    }
}

// The links out of t, which stands on k until f, are counted, and the keys of t and of their targets follow: in one walk, since
// each target's counts are whole once its link is counted.
pub fn count_links(w: &[u32], kept: &mut [u32], q: &mut [u64], t: usize, k: usize, f: usize)
    requires loaded { Loaded w.now × (kept_length ≤ length kept.old) }
    requires chained { Chained Source (sheet_in w.now) w.now × Chained Target (sheet_in w.now) w.now }
    requires k_bound { (k < 16) × (f < 2147483648) × (t < task_count (sheet_in w.now)) }
    requires single { Single (sheet_in w.now) × Landed (sheet_in w.now) (schedule_in w.now) t k f }
    requires gathered { Gathered (sheet_in w.now) kept.old × Counted (sheet_in w.now) (schedule_in w.now) (up_to (sheet_in w.now) (schedule_in w.now) t 0) kept.old }
    requires levelled { Levelled (sheet_in w.now) w.now × Early (schedule_in w.now) }
    requires keyed_beside { KeyedBeside (sheet_in w.now) (schedule_in w.now) t q.old }
    ensures { Beside kept.old kept.new × Counted (sheet_in w.now) (schedule_in w.now) (known (sheet_in w.now) (schedule_in w.now)) kept.new × Keyed (sheet_in w.now) (schedule_in w.now) q.new }
{
    keys::put(q, t, 0);
    let m = tables::links(w);
    let mut l = adjacency::first(w, End::Source, t);
    while l < m {
        arrivals::count_link(w, kept, t, k, f, l);
        renew_target(w, kept, q, tables::target(w, l));
        l = adjacency::next(w, End::Source, l);
    }
}

// The keys of all tasks, in a table of noughts.
pub fn begin(w: &[u32], kept: &[u32], q: &mut [u64])
    requires kept { Kept w.now kept.now }
    requires levelled { Levelled (sheet_in w.now) w.now }
    requires early { Early (schedule_in w.now) }
    requires q_value { q.old ≡ replicate 544 0 }
    ensures { Keyed (sheet_in w.now) (schedule_in w.now) q.new }
{
    let n = tables::tasks(w);
    for t in 0..n {
        renew_task(w, kept, q, t);
    }
}

// The task of a key.
fn task_of(key: u64) -> Option<usize>
    ensures { found_of result ≡ task_of key }
{
    if key == 0 {
        return None;
    }
    Some(255 - (key % 256) as usize)
}

// The first ready task of the schedule in w, by the keys.
pub fn first_ready(w: &[u32], kept: &[u32], q: &[u64]) -> Option<usize>
    requires kept { Kept w.now kept.now }
    requires keyed { Keyed (sheet_in w.now) (schedule_in w.now) q.now }
    ensures { (found_of result ≡ first_ready (sheet_in w.now) (schedule_in w.now)) × Below (task_count (sheet_in w.now)) result }
{
    task_of(keys::greatest_of(q, 512))
}

// The first partly ready task of the schedule in w, by the keys.
pub fn first_partly(w: &[u32], kept: &[u32], q: &[u64]) -> Option<usize>
    requires kept { Kept w.now kept.now }
    requires keyed { Keyed (sheet_in w.now) (schedule_in w.now) q.now }
    ensures { (found_of result ≡ first_partly_ready (sheet_in w.now) (schedule_in w.now)) × Below (task_count (sheet_in w.now)) result }
{
    task_of(keys::greatest_of(q, 528))
}
