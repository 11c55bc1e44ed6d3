// Fills the tables of the work area with a sheet made from draws.
ghost use Rattle.std.specs.Prelude.{◌≡◌, ◌+◌, ◌%◌, ◌<◌, ◌≤◌, length, slice_index};
ghost use Rattle.workspace.specs.Area.{fixed, link_count_at, task_count_at};
ghost use Rattle.sheet.specs.Tables.{Filling, LoadedOf, task_words};
ghost use Rattle.generator.specs.Draw.{after, drawn};
ghost use Rattle.generator.specs.Load.{task_behind, try_behind, sheet_from, outside};
ghost use Rattle.generator.specs.Filled.{Tasked, TriedIn};

use crate::draws;
use crate::draws::Draws;
use sheet::{pairs, tables};

// Whether no sheet is made from these numbers.
pub fn are_outside(seed: u32, tasks: u32, tries: u32, processors: u32) -> bool
    ensures { result ≡ outside seed tasks tries processors }
{
    seed == 0 || tasks < 1 || 256 < tasks || 1024 < tries || processors < 1 || 16 < processors
}

// Task i by the two draws behind d, which are its work's and its store's; the states behind them.
fn add_task(d: Draws, i: usize, w: &mut [u32]) -> Draws
    requires { (fixed ≤ length w.old) × (i < 256) }
    ensures { (result ≡ after 2 d) × (w.new ≡ task_words w.old i (task_behind d).work (task_behind d).store) }
{
    let first = draws::next(d);
    let second = draws::next(first);
    let work = (1 + draws::draw(first) % 100) as u16;
    let store = (draws::draw(second) % 64) as u16;
    tables::put_task(w, i, work, store);
    second
}

// A board with so many tasks; the states behind their draws.
fn put_tasks(seed: u32, tasks: usize, processors: u8, limit: u32, w: &mut [u32]) -> Draws
    requires { (fixed ≤ length w.old) × (tasks ≤ 256) × (processors ≤ 16) }
    ensures { Tasked seed processors limit tasks w.old w.new result }
{
    tables::put_board(w, processors, limit);
    let mut d = draws::start(seed);
    for i in 0..tasks {
        d = add_task(d, i, w);
    }
    d
}

// Adds a link, if it leads to a later task and its pair is not there yet.
fn try_link(w: &mut [u32], source: u32, target: u32, cost: u16, bytes: u16)
    requires filling { Filling w.old }
    requires source_bound { (source < slice_index w.old task_count_at) × (target < slice_index w.old task_count_at) × (slice_index w.old link_count_at < 1024) }
    ensures { TriedIn (record { source = source; target = target; cost = cost; bytes = bytes }) w.old w.new }
{
    if target <= source {
        return;
    }
    let a = source as usize;
    let b = target as usize;
    if pairs::joined(w, a, b) {
        return;
    }
    let m = tables::links(w);
    pairs::join(w, a, b);
    tables::put_link(w, m, source as u16, target as u16, cost, bytes);
}

// Tries the link of the four draws behind d; the states behind them, whether it was added or not.
fn add_try(d: Draws, tasks: u32, w: &mut [u32]) -> Draws
    requires filling { Filling w.old }
    requires tasks_value { (tasks ≡ slice_index w.old task_count_at) × (0 < tasks) × (slice_index w.old link_count_at < 1024) }
    ensures { (result ≡ after 4 d) × TriedIn (try_behind tasks d) w.old w.new }
{
    let first = draws::next(d);
    let second = draws::next(first);
    let third = draws::next(second);
    let fourth = draws::next(third);
    let source = draws::draw(first) % tasks;
    let target = draws::draw(second) % tasks;
    let cost = (draws::draw(third) % 50) as u16;
    let bytes = (draws::draw(fourth) % 16) as u16;
    try_link(w, source, target, cost, bytes);
    fourth
}

// The whole sheet of a seed, in the tables.
pub fn fill(seed: u32, tasks: u32, tries: u32, processors: u32, limit: u32, w: &mut [u32])
    requires { (fixed ≤ length w.old) × (1 ≤ tasks) × (tasks ≤ 256) × (tries ≤ 1024) × (processors ≤ 16) }
    ensures { LoadedOf (sheet_from seed tasks processors limit tries) w.old w.new }
{
    let n = tasks as usize;
    let mut d = put_tasks(seed, n, processors as u8, limit, w);
    pairs::blank(w, n);
    for _j in 0..tries {
        d = add_try(d, tasks, w);
    }
}
