// The schedule of a sheet: cleared, begun, and filled turn by turn.
#![tactic(auto)]

ghost use Rattle.std.specs.Prelude.{◌≡◌, true, ◌+◌, ◌<◌};
ghost use Rattle.sheet.specs.Sheet.{task_count};
ghost use Rattle.sheet.specs.Tables.{sheet_in, Loaded};
ghost use Rattle.planner.specs.Placing.{ready, start_on, barred};
ghost use Rattle.planner.specs.Planner.{choice, placed_from, place_on, turn, turns, planned};
ghost use Rattle.levelling.specs.Found.{Levelled};
ghost use Rattle.schedule.specs.Layout.{schedule_in};
ghost use Rattle.arrivals.specs.Lanes.{Started};
ghost use Rattle.arrivals.specs.Kept.{Single, Surveyed};
ghost use Rattle.readiness.specs.Keyed.{Keyed};
ghost use Rattle.turns.specs.Turns.{answer_of, Going, Cleared, Emptied, Afterwards};

use adjacency::End;
use arrivals::Starts;
use refusals::{Fault, Refusal};
use sheet::tables;
use workspace::{FINISHES, OPENED, PLACED, PLACES};

// t goes on k at turn j, from its start there on, and the keys follow.
fn put_on(
    w: &mut [u32],
    kept: &mut [u32],
    q: &mut [u64],
    j: usize,
    t: usize,
    k: usize,
    start: usize,
)
    requires going { Going w.old j w.old kept.old }
    requires j_bound { (j < 256) × (t < task_count (sheet_in w.old)) × (k < 16) × (start ≡ start_on (sheet_in w.old) (schedule_in w.old) t k) × (start < 4294967296) }
    requires t_value { (ready (sheet_in w.old) (schedule_in w.old) t ≡ true) × Surveyed (sheet_in w.old) (schedule_in w.old) t kept.old }
    requires keyed { Keyed (sheet_in w.old) (schedule_in w.old) q.old }
    ensures { (schedule_in w.new ≡ placed_from (sheet_in w.old) (barred (sheet_in w.old)) (schedule_in w.old) t k (start_on (sheet_in w.old) (schedule_in w.old) t k)) × Going w.old (j + 1) w.new kept.new × Keyed (sheet_in w.new) (schedule_in w.new) q.new }
{
    let finish = start + tables::work(w, t);
    let open = schedule::opened(w).max(k + 1);
    let n = schedule::placed(w);
    arrivals::settle(w, kept, t, k, start, finish);
    arrivals::release(kept);
    schedule::put(w, t, k, finish, n, open);
    readiness::count_links(w, kept, q, t, k, finish);
}

// The first ready task, which is surveyed, goes where the steps say by its starts, or is refused.
fn place_surveyed(
    w: &mut [u32],
    kept: &mut [u32],
    q: &mut [u64],
    j: usize,
    t: usize,
    starts: Starts,
) -> Result<(), Refusal>
    requires going { Going w.old j w.old kept.old }
    requires j_bound { (j < 256) × (t < task_count (sheet_in w.old)) }
    requires t_value { (ready (sheet_in w.old) (schedule_in w.old) t ≡ true) × Surveyed (sheet_in w.old) (schedule_in w.old) t kept.old × Started w.old t starts }
    requires keyed { Keyed (sheet_in w.old) (schedule_in w.old) q.old }
    ensures { (answer_of result (schedule_in w.new) ≡ place_on (sheet_in w.old) (barred (sheet_in w.old)) (schedule_in w.old) t (choice (sheet_in w.old) (barred (sheet_in w.old)) true (schedule_in w.old) t)) × Going w.old (j + 1) w.new kept.new × Keyed (sheet_in w.new) (schedule_in w.new) q.new }
{
    match placing::choice_of(w, kept, q, t, starts) {
        None => Err(Fault::NoStore.at(t)),
        Some(k) => {
            put_on(w, kept, q, j, t, k, starts.at[k] as usize);
            Ok(())
        }
    }
}

// The first ready task is surveyed, and goes where the steps say.
fn place_task(
    w: &mut [u32],
    kept: &mut [u32],
    q: &mut [u64],
    j: usize,
    t: usize,
) -> Result<(), Refusal>
    requires going { Going w.old j w.old kept.old }
    requires j_bound { (j < 256) × (t < task_count (sheet_in w.old)) }
    requires t_value { ready (sheet_in w.old) (schedule_in w.old) t ≡ true }
    requires keyed { Keyed (sheet_in w.old) (schedule_in w.old) q.old }
    ensures { (answer_of result (schedule_in w.new) ≡ place_on (sheet_in w.old) (barred (sheet_in w.old)) (schedule_in w.old) t (choice (sheet_in w.old) (barred (sheet_in w.old)) true (schedule_in w.old) t)) × Going w.old (j + 1) w.new kept.new × Keyed (sheet_in w.new) (schedule_in w.new) q.new }
{
    let starts = arrivals::survey(w, kept, t);
    place_surveyed(w, kept, q, j, t, starts)
}

// One turn.
fn take_turn(w: &mut [u32], kept: &mut [u32], q: &mut [u64], j: usize) -> Result<(), Refusal>
    requires going { Going w.old j w.old kept.old }
    requires j_bound { j < 256 }
    requires keyed { Keyed (sheet_in w.old) (schedule_in w.old) q.old }
    ensures { (answer_of result (schedule_in w.new) ≡ turn (sheet_in w.old) (barred (sheet_in w.old)) true (schedule_in w.old)) × Going w.old (j + 1) w.new kept.new × Keyed (sheet_in w.new) (schedule_in w.new) q.new }
{
    match readiness::first_ready(w, kept, q) {
        None => Ok(()),
        Some(t) => place_task(w, kept, q, j, t),
    }
}

// Turns until all tasks are placed, or one is refused; q holds the keys of the empty schedule.
fn take_each(w: &mut [u32], kept: &mut [u32], q: &mut [u64]) -> Result<(), Refusal>
    requires going { Going w.old 0 w.old kept.old }
    requires keyed { Keyed (sheet_in w.old) (schedule_in w.old) q.old }
    ensures { (answer_of result (schedule_in w.new) ≡ turns (sheet_in w.old) (barred (sheet_in w.old)) true (task_count (sheet_in w.old)) (schedule_in w.old)) × Going w.old 256 w.new kept.new }
{
    let n = tables::tasks(w);
    for j in 0..n {
        take_turn(w, kept, q, j)?;
    }
    Ok(())
}

// All turns, by the keys of who goes first.
fn take_turns(w: &mut [u32], kept: &mut [u32]) -> Result<(), Refusal>
    requires { Going w.old 0 w.old kept.old }
    ensures { (answer_of result (schedule_in w.new) ≡ turns (sheet_in w.old) (barred (sheet_in w.old)) true (task_count (sheet_in w.old)) (schedule_in w.old)) × Going w.old 256 w.new kept.new }
{
    let mut keys = [0u64; 544];
    readiness::begin(w, kept, &mut keys);
    take_each(w, kept, &mut keys)
}

// No task is placed.
fn clear_tables(w: &mut [u32])
    requires { Loaded w.old }
    ensures { Cleared w.old (task_count (sheet_in w.old)) w.new }
{
    let n = tables::tasks(w);
    w[PLACES..PLACES + n].fill(16);
    w[FINISHES..FINISHES + n].fill(0);
}

// The empty schedule.
fn clear(w: &mut [u32])
    requires { Loaded w.old }
    ensures { Emptied w.old w.new }
{
    clear_tables(w);
    w[OPENED] = 0;
    w[PLACED] = 0;
}

// The schedule of the sheet in the tables, in its words of the area, or the task that is refused.
pub fn schedule(w: &mut [u32]) -> Result<(), Refusal>
    requires loaded { Loaded w.old }
    requires levelled { Levelled (sheet_in w.old) w.old }
    requires single { Single (sheet_in w.old) }
    ensures { (answer_of result (schedule_in w.new) ≡ planned (sheet_in w.old)) × Afterwards w.old w.new }
{
    let mut kept = [0u32; arrivals::LENGTH];
    clear(w);
    adjacency::chain(w, End::Source);
    arrivals::gather(w, &mut kept);
    take_turns(w, &mut kept)
}
