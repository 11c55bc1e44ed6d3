// The sheet's side of the interface, behind the test of the work area.
ghost use Rattle.std.specs.Prelude.{◌≡◌, ◌+◌, ◌*◌, ◌≤◌, ◌<◌, length};
ghost use Rattle.folds.specs.Answers.{and_then, fitting};
ghost use Rattle.numbers.specs.Number.{stored};
ghost use Rattle.workspace.specs.Area.{fixed};
ghost use Rattle.sheet.specs.Sheet.{task_count};
ghost use Rattle.sheet.specs.Tables.{sheet_in, Loaded};
ghost use Rattle.sheet.specs.Writing.{cube_of, value_bytes, sheet_bytes};
ghost use Rattle.generator.specs.Load.{generated};
ghost use Rattle.graph.specs.Graph.{read_sheet};
ghost use Rattle.levelling.specs.Found.{Levelled};
ghost use Rattle.entry_points.specs.Values.{levels_of, tabled, board_of};
ghost use Rattle.entry_points.specs.Parts.{PartIs, SheetIs};

use generator::{bytes, loads};
use levelling::open;
use refusals::{Fault, Refusal};
use sheet::{LINK_SIZE, TASK_SIZE, tables};
use sheet_writer::{unload, writer};
use workspace::{LEVELS, LIMIT, LINK_COUNT, PROCESSORS, TASK_COUNT, UNPACKING};

// The level words, at the front of `out`.
fn copy_levels(w: &[u32], out: &mut [u32])
    requires loaded { Loaded w.now }
    requires levelled { Levelled (sheet_in w.now) w.now }
    requires w_in_bounds { task_count (sheet_in w.now) ≤ length out.old }
    ensures { out.new ≡ stored out.old 0 (levels_of (sheet_in w.now)) }
{
    let n = tables::tasks(w);
    for t in 0..n {
        out[t] = w[LEVELS + t];
    }
}

// The levels of a sheet.
pub fn levels(sheet: &[u8], work: &mut [u32], out: &mut [u32]) -> Result<usize, Refusal>
    requires { fixed ≤ length work.old }
    ensures { PartIs (and_then (read_sheet sheet.now) (λ s. fitting (length out.old) (levels_of s))) work.old work.new out.old out.new result }
{
    open::read(sheet, work)?;
    let n = tables::tasks(work);
    if out.len() < n {
        return Err(Fault::ShortOutput.at(n));
    }
    copy_levels(work, out);
    Ok(n)
}

// The bytes of a sheet that is given by its values.
pub fn write(
    processors: u8,
    limit: u32,
    unpacking: u16,
    cube: u8,
    tasks: &[u16],
    links: &[u16],
    work: &mut [u32],
    out: &mut [u8],
) -> Result<usize, Refusal>
    requires { fixed ≤ length work.old }
    ensures { PartIs (and_then (read_sheet (value_bytes processors limit unpacking (cube_of cube) tasks.now links.now)) (λ s. fitting (length out.old) (value_bytes processors limit unpacking (cube_of cube) tasks.now links.now))) work.old work.new out.old out.new result }
{
    open::load(processors, limit, unpacking, cube, tasks, links, work)?;
    let wired = cube != 0;
    let start = sheet::front(unpacking as usize, wired);
    let need = start + TASK_SIZE * (tasks.len() / 2) + LINK_SIZE * (links.len() / 4) + 1;
    if out.len() < need {
        return Err(Fault::ShortOutput.at(need));
    }
    writer::put_sheet(out, processors, limit, unpacking, wired, tasks, links);
    Ok(need)
}

// The bytes of the sheet that a seed gives.
pub fn generate(
    seed: u32,
    tasks: u32,
    tries: u32,
    processors: u32,
    limit: u32,
    work: &mut [u32],
    out: &mut [u8],
) -> Result<usize, Refusal>
    requires { fixed ≤ length work.old }
    ensures { PartIs (and_then (generated seed tasks tries processors limit) (λ s. fitting (length out.old) (sheet_bytes s))) work.old work.new out.old out.new result }
{
    if loads::are_outside(seed, tasks, tries, processors) {
        return Err(Fault::Range.at(0));
    }
    loads::fill(seed, tasks, tries, processors, limit, work);
    let need = bytes::byte_count(work);
    if out.len() < need {
        return Err(Fault::ShortOutput.at(need));
    }
    bytes::put_sheet(work, out);
    Ok(need)
}

// Processors, limit, tasks, links, the unpacking time, and 1 for a cube.
fn put_board(w: &[u32], board: &mut [u32; 6])
    requires { Loaded w.now }
    ensures { board.new ≡ board_of (sheet_in w.now) }
{
    *board = [
        w[PROCESSORS],
        w[LIMIT],
        w[TASK_COUNT],
        w[LINK_COUNT],
        w[UNPACKING],
        u32::from(tables::cube(w)),
    ];
}

// The tables of a sheet.
pub fn read(
    sheet: &[u8],
    work: &mut [u32],
    tasks: &mut [u16],
    links: &mut [u16],
    board: &mut [u32; 6],
) -> Result<usize, Refusal>
    requires { fixed ≤ length work.old }
    ensures { SheetIs (and_then (read_sheet sheet.now) (tabled (length tasks.old) (length links.old))) work.old work.new tasks.old tasks.new links.old links.new board.old board.new result }
{
    open::read(sheet, work)?;
    let n = 2 * tables::tasks(work);
    if tasks.len() < n {
        return Err(Fault::ShortOutput.at(n));
    }
    let m = 4 * tables::links(work);
    if links.len() < m {
        return Err(Fault::ShortOutput.at(m));
    }
    unload::tasks(work, tasks);
    unload::links(work, links);
    put_board(work, board);
    Ok(0)
}
