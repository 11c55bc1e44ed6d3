// Copies the sheet in the tables out as values: two a task (work, store), four a link (source, target, cost, bytes).
ghost use Rattle.std.specs.Prelude.{◌≡◌, [], ◌∷◌, ◌+◌, ◌*◌, ◌≤◌, ◌<◌, length};
ghost use Rattle.numbers.specs.Number.{stored};
ghost use Rattle.sheet.specs.Sheet.{task_count, link_count};
ghost use Rattle.sheet.specs.Writing.{task_values, link_values};
ghost use Rattle.sheet.specs.Tables.{link_in, sheet_in, Loaded};

use sheet::tables;

// Two values at `at`.
fn put_pair(out: &mut [u16], at: usize, x: usize, y: usize)
    requires { (at + 2 ≤ length out.old) × (x < 65536) × (y < 65536) }
    ensures { out.new ≡ stored out.old at (x ∷ y ∷ []) }
{
    out[at] = x as u16;
    out[at + 1] = y as u16;
}

// All tasks, at the front of `out`.
pub fn tasks(w: &[u32], out: &mut [u16])
    requires loaded { Loaded w.now }
    requires w_in_bounds { 2 * task_count (sheet_in w.now) ≤ length out.old }
    ensures { out.new ≡ stored out.old 0 (task_values (sheet_in w.now).tasks) }
{
    for i in 0..tables::tasks(w) {
        put_pair(out, 2 * i, tables::work(w, i), tables::store(w, i));
    }
}

// Link l at its place.
fn put_link(w: &[u32], l: usize, out: &mut [u16])
    requires loaded { Loaded w.now }
    requires l_bound { (l < link_count (sheet_in w.now)) × (4 * l + 4 ≤ length out.old) }
    ensures { out.new ≡ stored out.old (4 * l) (link_values (link_in w.now l ∷ [])) }
{
    put_pair(out, 4 * l, tables::source(w, l), tables::target(w, l));
    put_pair(out, 4 * l + 2, tables::cost(w, l), tables::size(w, l));
}

// All links, at the front of `out`.
pub fn links(w: &[u32], out: &mut [u16])
    requires loaded { Loaded w.now }
    requires w_in_bounds { 4 * link_count (sheet_in w.now) ≤ length out.old }
    ensures { out.new ≡ stored out.old 0 (link_values (sheet_in w.now).links) }
{
    for l in 0..tables::links(w) {
        put_link(w, l, out);
    }
}
