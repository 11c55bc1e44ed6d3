// The lowest task on a circle: for one task after the other, the tasks that lead to it, until a link out of it leads to one of them.
ghost use Rattle.std.specs.Prelude.{◌≡◌, ◌+◌, ◌<◌};
ghost use Rattle.sheet.specs.Sheet.{task_count};
ghost use Rattle.sheet.specs.Tables.{sheet_in};
ghost use Rattle.graph.specs.Graph.{on_circle, circle};
ghost use Rattle.adjacency.specs.Chains.{Chained};
ghost use Rattle.adjacency.specs.declared.End.TheVariants.{Target};
ghost use Rattle.topological_order.specs.Words.{Held, Outside, place_in, Queued};
ghost use Rattle.topological_order.specs.Peeling.{Noted, Searched, Spreading};
ghost use Rattle.workspace.specs.Found.{found_of};
ghost use Rattle.levelling.specs.Found.{SpreadIs};

use adjacency::End;
use sheet::tables;
use topological_order::{peel, queue};
use workspace::{MARKS, QUEUE};

// Task u is in the queue of k tasks, or goes into it. The answer is the length of the queue.
fn note(w: &mut [u32], k: usize, u: usize) -> usize
    requires held { Held w.old }
    requires u_bound { u < task_count (sheet_in w.old) }
    requires queued { Queued (task_count (sheet_in w.old)) k w.old }
    ensures { Outside w.old w.new × Noted (task_count (sheet_in w.old)) k u result w.old w.new }
{
    if 65536 <= workspace::word(w, MARKS + u) {
        k
    } else {
        queue::push(w, k, u);
        k + 1
    }
}

// The links into v: their sources are in the queue of k tasks, or go into it. The answer is the length of the queue, or none where
// a source is the goal.
fn walk_into(w: &mut [u32], goal: usize, k: usize, v: usize) -> Option<usize>
    requires held { Held w.old }
    requires chained { Chained Target (sheet_in w.old) w.old }
    requires spreading { Spreading (sheet_in w.old) goal (place_in w.old v) k 0 v w.old }
    ensures { Outside w.old w.new × SpreadIs (sheet_in w.old) goal (place_in w.old v + 1) w.new result }
{
    let m = tables::links(w);
    let mut q = k;
    let mut l = adjacency::first(w, End::Target, v);
    while l < m {
        let u = tables::source(w, l);
        if u == goal {
            return None;
        }
        q = note(w, q, u);
        l = adjacency::next(w, End::Target, l);
    }
    Some(q)
}

// Task i of the queue of k tasks is looked at: the length of the queue, or none where a circle through the goal is closed.
fn look(w: &mut [u32], goal: usize, i: usize, k: usize) -> Option<usize>
    requires held { Held w.old }
    requires chained { Chained Target (sheet_in w.old) w.old }
    requires i_lt_k { i < k }
    requires searched { Searched (sheet_in w.old) goal i k w.old }
    ensures { Outside w.old w.new × SpreadIs (sheet_in w.old) goal (i + 1) w.new result }
{
    let v = workspace::word(w, QUEUE + i);
    walk_into(w, goal, k, v)
}

// All of the queue, which begins with the goal.
fn look_all(w: &mut [u32], goal: usize) -> bool
    requires held { Held w.old }
    requires chained { Chained Target (sheet_in w.old) w.old }
    requires goal_bound { goal < task_count (sheet_in w.old) }
    requires searched { Searched (sheet_in w.old) goal 0 1 w.old }
    ensures { Outside w.old w.new × (result ≡ on_circle (sheet_in w.old) goal) }
{
    let mut k: usize = 1;
    let mut i: usize = 0;
    while i < k {
        match look(w, goal, i, k) {
            None => {
                return true;
            }
            Some(found) => {
                k = found;
                i += 1;
            }
        }
    }
    false
}

// Whether a path leads from the goal back to it.
fn on_circle(w: &mut [u32], goal: usize) -> bool
    requires held { Held w.old }
    requires chained { Chained Target (sheet_in w.old) w.old }
    requires goal_bound { goal < task_count (sheet_in w.old) }
    ensures { Outside w.old w.new × (result ≡ on_circle (sheet_in w.old) goal) }
{
    peel::blank(w);
    queue::push(w, 0, goal);
    look_all(w, goal)
}

pub fn find(w: &mut [u32]) -> Option<usize>
    requires held { Held w.old }
    requires chained { Chained Target (sheet_in w.old) w.old }
    ensures { Outside w.old w.new × (found_of result ≡ circle (sheet_in w.old)) }
{
    for t in 0..tables::tasks(w) {
        if on_circle(w, t) {
            return Some(t);
        }
    }
    None
}
