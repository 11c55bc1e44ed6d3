// Kahn's algorithm from the tasks without successors: first those, then each task whose successors are all taken off.
// A task gets its level when it is taken off, so after all its successors; what is not taken off reaches a circle.
ghost use Rattle.std.specs.Prelude.{◌≡◌, ◌+◌, ◌<◌};
ghost use Rattle.sheet.specs.Sheet.{task_count, link_count, target_of};
ghost use Rattle.sheet.specs.Tables.{sheet_in};
ghost use Rattle.adjacency.specs.Chains.{Chained};
ghost use Rattle.adjacency.specs.declared.End.TheVariants.{Source, Target};
ghost use Rattle.topological_order.specs.Words.{Held, Outside, Grown, place_in};
ghost use Rattle.topological_order.specs.Peeling.{Peeled, Walking, FirstLevels, Counted, Filled};
ghost use Rattle.topological_order.specs.Steps.{Taken, AllTaken, InThesisOrder, Ordered};

use crate::{level, queue};
use adjacency::End;
use sheet::tables;
use workspace::{MARKS, QUEUE};

// Link l into v, which is taken off, is counted off at its source; a source without other links goes into the queue of k tasks.
// The answer is the length of the queue.
fn visit(w: &mut [u32], k: usize, v: usize, l: usize) -> usize
    requires held { Held w.old }
    requires l_bound { (l < link_count (sheet_in w.old)) × (target_of (sheet_in w.old) l ≡ v) }
    requires walking { Walking (sheet_in w.old) (place_in w.old v) k l v 0 0 w.old }
    ensures { Grown k result w.old w.new × Walking (sheet_in w.old) (place_in w.old v) result (l + 1) v 0 0 w.new }
{
    let u = tables::source(w, l);
    let d = workspace::word(w, MARKS + u);
    w[MARKS + u] = (d - 1) as u32;
    if d == 1 {
        queue::push(w, k, u);
        k + 1
    } else {
        k
    }
}

// The links into v, which is taken off.
fn walk(w: &mut [u32], k: usize, v: usize) -> usize
    requires held { Held w.old }
    requires chained { Chained Target (sheet_in w.old) w.old }
    requires walking { Walking (sheet_in w.old) (place_in w.old v) k 0 v 0 0 w.old }
    ensures { Grown k result w.old w.new × Peeled (sheet_in w.old) (place_in w.old v + 1) result 0 0 w.new }
{
    let m = tables::links(w);
    let mut q = k;
    let mut l = adjacency::first(w, End::Target, v);
    while l < m {
        q = visit(w, q, v, l);
        l = adjacency::next(w, End::Target, l);
    }
    q
}

// Step i: task i of the queue of k tasks gets its level, and is taken off.
fn take(w: &mut [u32], i: usize, k: usize) -> usize
    requires held { Held w.old }
    requires chained { Chained Source (sheet_in w.old) w.old × Chained Target (sheet_in w.old) w.old }
    requires i_lt_k { i < k }
    requires peeled { Peeled (sheet_in w.old) i k 0 0 w.old × FirstLevels (sheet_in w.old) i w.old }
    ensures { Taken i result w.old w.new }
{
    let v = workspace::word(w, QUEUE + i);
    level::set(w, v);
    walk(w, k, v)
}

// All that can be taken off, from a queue of k tasks on; the answer is how many.
fn take_all(w: &mut [u32], k: usize) -> usize
    requires held { Held w.old }
    requires chained { Chained Source (sheet_in w.old) w.old × Chained Target (sheet_in w.old) w.old }
    requires peeled { Peeled (sheet_in w.old) 0 k 0 0 w.old }
    ensures { Outside w.old w.new × AllTaken (sheet_in w.old) result w.new × InThesisOrder (sheet_in w.old) result w.old w.new }
{
    let mut q = k;
    let mut i: usize = 0;
    while i < q {
        q = take(w, i, q);
        i += 1;
    }
    q
}

// Task t goes into the queue of k tasks if it has no links.
fn offer(w: &mut [u32], k: usize, t: usize) -> usize
    requires held { Held w.old }
    requires t_bound { t < task_count (sheet_in w.old) }
    requires filled { Filled (sheet_in w.old) k t w.old }
    ensures { Outside w.old w.new × Filled (sheet_in w.old) result (t + 1) w.new }
{
    if workspace::word(w, MARKS + t) == 0 {
        queue::push(w, k, t);
        k + 1
    } else {
        k
    }
}

// All tasks without links; the answer is how many.
fn fill(w: &mut [u32]) -> usize
    requires held { Held w.old }
    requires filled { Filled (sheet_in w.old) 0 0 w.old }
    ensures { Outside w.old w.new × Peeled (sheet_in w.old) 0 result 0 0 w.new }
{
    let mut k = 0;
    for t in 0..tables::tasks(w) {
        k = offer(w, k, t);
    }
    k
}

// No link counted, and nothing in the queue.
pub fn blank(w: &mut [u32])
    requires { Held w.old }
    ensures { Outside w.old w.new × Counted (sheet_in w.old) (task_count (sheet_in w.old)) 0 w.new }
{
    let n = tables::tasks(w);
    workspace::clear_words(w, MARKS, MARKS + n);
}

// Link l is counted at its source.
fn count_one(w: &mut [u32], l: usize)
    requires held { Held w.old }
    requires l_bound { l < link_count (sheet_in w.old) }
    requires counted { Counted (sheet_in w.old) (task_count (sheet_in w.old)) l w.old }
    ensures { Outside w.old w.new × Counted (sheet_in w.old) (task_count (sheet_in w.old)) (l + 1) w.new }
{
    let u = tables::source(w, l);
    let d = workspace::word(w, MARKS + u);
    w[MARKS + u] = (d + 1) as u32;
}

// All links are counted.
fn count(w: &mut [u32])
    requires held { Held w.old }
    requires counted { Counted (sheet_in w.old) (task_count (sheet_in w.old)) 0 w.old }
    ensures { Outside w.old w.new × Filled (sheet_in w.old) 0 0 w.new }
{
    for l in 0..tables::links(w) {
        count_one(w, l);
    }
}

// The whole; the answer is how many tasks could be taken off.
pub fn peel(w: &mut [u32]) -> usize
    requires held { Held w.old }
    requires chained { Chained Source (sheet_in w.old) w.old × Chained Target (sheet_in w.old) w.old }
    ensures { Outside w.old w.new × AllTaken (sheet_in w.old) result w.new × Ordered (sheet_in w.old) result w.new }
{
    blank(w);
    count(w);
    let k = fill(w);
    take_all(w, k)
}
