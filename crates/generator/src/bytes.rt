// Writes the bytes of the sheet that stands in the tables. Each part is handed what is left of the output.
ghost use Rattle.std.specs.Prelude.{◌≡◌, ◌+◌, ◌*◌, ◌<◌, ◌≤◌, length};
ghost use Rattle.numbers.specs.Number.{stored};
ghost use Rattle.sheet.specs.Sheet.{task_count, link_count};
ghost use Rattle.sheet.specs.Sizes.{task_size, link_size, size_of};
ghost use Rattle.sheet.specs.Writing.{link_command, task_command, task_bytes, link_bytes, sheet_bytes};
ghost use Rattle.sheet.specs.Tables.{link_in, task_in, sheet_in, Loaded};

use sheet::{END_BYTE, LINK_SIZE, TASK_SIZE, tables};
use sheet_writer::writer;

// Task i at its place.
fn put_task(w: &[u32], i: usize, out: &mut [u8])
    requires loaded { Loaded w.now }
    requires i_bound { (i < task_count (sheet_in w.now)) × (task_size * i + task_size ≤ length out.old) }
    ensures { out.new ≡ stored out.old (task_size * i) (task_command (task_in w.now i)) }
{
    let work = tables::work(w, i) as u16;
    let store = tables::store(w, i) as u16;
    writer::put_task(out, TASK_SIZE * i, work, store);
}

// All tasks, from the start of `out`.
fn put_tasks(w: &[u32], out: &mut [u8])
    requires loaded { Loaded w.now }
    requires w_in_bounds { task_size * task_count (sheet_in w.now) ≤ length out.old }
    ensures { out.new ≡ stored out.old 0 (task_bytes (sheet_in w.now).tasks) }
{
    for i in 0..tables::tasks(w) {
        put_task(w, i, out);
    }
}

// Link l at its place.
fn put_link(w: &[u32], l: usize, out: &mut [u8])
    requires loaded { Loaded w.now }
    requires l_bound { (l < link_count (sheet_in w.now)) × (link_size * l + link_size ≤ length out.old) }
    ensures { out.new ≡ stored out.old (link_size * l) (link_command (link_in w.now l)) }
{
    let source = tables::source(w, l) as u16;
    let target = tables::target(w, l) as u16;
    let cost = tables::cost(w, l) as u16;
    let size = tables::size(w, l) as u16;
    writer::put_link(out, LINK_SIZE * l, source, target, cost, size);
}

// All links, from the start of `out`.
fn put_links(w: &[u32], out: &mut [u8])
    requires loaded { Loaded w.now }
    requires w_in_bounds { link_size * link_count (sheet_in w.now) ≤ length out.old }
    ensures { out.new ≡ stored out.old 0 (link_bytes (sheet_in w.now).links) }
{
    for l in 0..tables::links(w) {
        put_link(w, l, out);
    }
}

// How many bytes the sheet in the tables has.
pub fn byte_count(w: &[u32]) -> usize
    requires { Loaded w.now }
    ensures { result ≡ size_of (sheet_in w.now) }
{
    tables::front(w) + TASK_SIZE * tables::tasks(w) + LINK_SIZE * tables::links(w) + 1
}

// The whole sheet at the front of `out`.
pub fn put_sheet(w: &[u32], out: &mut [u8])
    requires loaded { Loaded w.now }
    requires w_in_bounds { size_of (sheet_in w.now) ≤ length out.old }
    ensures { out.new ≡ stored out.old 0 (sheet_bytes (sheet_in w.now)) }
{
    writer::put_board(
        out,
        tables::processors(w) as u8,
        tables::limit(w) as u32,
        tables::unpacking(w) as u16,
        tables::cube(w),
    );
    let start = tables::front(w);
    put_tasks(w, &mut out[start..]);
    let at = start + TASK_SIZE * tables::tasks(w);
    put_links(w, &mut out[at..]);
    let end = at + LINK_SIZE * tables::links(w);
    out[end] = END_BYTE;
}
