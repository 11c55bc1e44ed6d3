// Takes a sheet from its values into the tables, judged as the reader would judge their bytes: two values a task (work, store), four a
// link (source, target, cost, bytes).
ghost use Rattle.std.specs.Prelude.{◌≡◌, false, [], ◌+◌, ◌*◌, ◌/◌, ◌≤◌, ◌<◌, length, get_or};
ghost use Rattle.workspace.specs.Area.{fixed, link_count_at, task_count_at};
ghost use Rattle.sheet.specs.Sizes.{board_size, unpacking_size, cube_size, task_size};
ghost use Rattle.sheet.specs.Format.{read_form};
ghost use Rattle.sheet.specs.Writing.{cube_of, value_bytes, task_value_bytes, link_value_bytes};
ghost use Rattle.sheet.specs.Tables.{pair_in, Loaded, LoadedOf, Filling, link_words, pair_words};
ghost use Rattle.sheet_reader.specs.Answers.{ReadIs, values_closed};
ghost use Rattle.sheet_reader.specs.Scanning.{read_on};

use crate::bytes;
use refusals::{Fault, Refusal};
use sheet::{LINK_SIZE, TASK_SIZE, pairs, tables};

// Puts link j of the values into the tables.
fn add_link(links: &[u16], j: usize, w: &mut [u32])
    requires j_in_bounds { (4 * j + 4 ≤ length links.now) × (fixed ≤ length w.old) × (j < 1024) }
    requires j_bound { (get_or links.now (4 * j) 0 < 256) × (get_or links.now (4 * j + 1) 0 < 256) }
    requires j_value { pair_in w.old (get_or links.now (4 * j) 0) (get_or links.now (4 * j + 1) 0) ≡ false }
    ensures { w.new ≡ link_words (pair_words w.old (get_or links.now (4 * j) 0) (get_or links.now (4 * j + 1) 0)) j (get_or links.now (4 * j) 0) (get_or links.now (4 * j + 1) 0) (get_or links.now (4 * j + 2) 0) (get_or links.now (4 * j + 3) 0) }
{
    let k = 4 * j;
    let source = links[k];
    let target = links[k + 1];
    pairs::join(w, source as usize, target as usize);
    tables::put_link(w, j, source, target, links[k + 2], links[k + 3]);
}

// What stands behind the links, which begin at `start`: a link that is cut, or the end.
fn closing(links: &[u16], start: usize) -> Result<(), Refusal>
    requires { (start < 65536) × (length links.now / 4 ≤ 1024) }
    ensures { result ≡ values_closed (length links.now) start }
{
    let end = start + LINK_SIZE * (links.len() / 4);
    if links.len() % 4 != 0 {
        return Err(Fault::CutSheet.at(end));
    }
    Ok(())
}

// The links' values, behind so many tasks: their commands begin at `start`.
fn load_links(links: &[u16], start: usize, tasks: usize, w: &mut [u32]) -> Result<(), Refusal>
    requires filling { Filling w.old }
    requires tasks_value { (tasks ≡ get_or w.old task_count_at 0) × (get_or w.old link_count_at 0 ≡ 0) × (start ≤ board_size + unpacking_size + cube_size + task_size * tasks) }
    ensures { ReadIs (read_on w.old (link_value_bytes links.now) start) w.old w.new result }
{
    let m = links.len() / 4;
    for j in 0..m {
        let k = 4 * j;
        let fault = bytes::link_fault(w, tasks, j, links[k] as usize, links[k + 1] as usize);
        refusals::at(fault, start + LINK_SIZE * j)?;
        add_link(links, j, w);
    }
    closing(links, start)
}

// The tasks' values, whose commands begin at `start`, and then the links'.
fn load_tasks(tasks: &[u16], links: &[u16], start: usize, w: &mut [u32]) -> Result<(), Refusal>
    requires loaded { Loaded w.old }
    requires task_count_at_value { (get_or w.old task_count_at 0 ≡ 0) × (get_or w.old link_count_at 0 ≡ 0) × (start ≤ board_size + unpacking_size + cube_size) }
    ensures { ReadIs (read_on w.old (task_value_bytes tasks.now links.now) start) w.old w.new result }
{
    let n = tasks.len() / 2;
    for i in 0..n {
        let k = 2 * i;
        let fault = bytes::task_fault(i, tasks[k]);
        refusals::at(fault, start + TASK_SIZE * i)?;
        tables::put_task(w, i, tasks[k], tasks[k + 1]);
    }
    if tasks.len() % 2 != 0 {
        return Err(Fault::CutSheet.at(start + TASK_SIZE * n));
    }
    pairs::blank(w, n);
    load_links(links, start + TASK_SIZE * n, n, w)
}

// The board's values in the tables.
fn load_board(processors: u8, limit: u32, unpacking: u16, cube: bool, w: &mut [u32])
    requires { (fixed ≤ length w.old) × (processors ≤ 16) }
    ensures { LoadedOf (record { processors = processors; limit = limit; unpacking = unpacking; cube = cube; tasks = []; links = [] }) w.old w.new }
{
    tables::put_board(w, processors, limit);
    tables::put_unpacking(w, unpacking);
    if cube {
        tables::put_cube(w);
    }
}

// A sheet's values in the tables, or the first of refusals 1 to 8 that the reader would give their bytes.
pub fn load(
    processors: u8,
    limit: u32,
    unpacking: u16,
    cube: u8,
    tasks: &[u16],
    links: &[u16],
    w: &mut [u32],
) -> Result<(), Refusal>
    requires { fixed ≤ length w.old }
    ensures { ReadIs (read_form (value_bytes processors limit unpacking (cube_of cube) tasks.now links.now)) w.old w.new result }
{
    if processors < 1 || 16 < processors {
        return Err(Fault::Range.at(0));
    }
    let wired = cube != 0;
    load_board(processors, limit, unpacking, wired, w);
    load_tasks(tasks, links, sheet::front(unpacking as usize, wired), w)
}
