// Writes a sheet's bytes from its values. Each part is handed what is left of the output.
ghost use Rattle.std.specs.Prelude.{◌≡◌, false, ◌∷◌, ◌++◌, ◌+◌, ◌*◌, ◌/◌, ◌%◌, ◌≤◌, ◌<◌, length};
ghost use Rattle.numbers.specs.Number.{number_bytes, stored};
ghost use Rattle.folds.specs.Folds.{listed, pick};
ghost use Rattle.sheet.specs.Sizes.{board_size, cube_size, task_size, link_size, front_by};
ghost use Rattle.sheet.specs.Writing.{unpacking_bytes, cube_bytes, board_bytes, task_bytes, link_bytes, task_value, link_value, value_bytes, Narrow};

use sheet::{
    BOARD_BYTE, BOARD_SIZE, CUBE_BYTE, END_BYTE, LINK_BYTE, LINK_SIZE, TASK_BYTE, TASK_SIZE,
    UNPACKING_BYTE,
};

pub fn put_task(out: &mut [u8], at: usize, work: u16, store: u16)
    requires { at + task_size ≤ length out.old }
    ensures { out.new ≡ stored out.old at (0x54 ∷ (number_bytes 2 work ++ number_bytes 2 store)) }
{
    out[at] = TASK_BYTE;
    numbers::put16(out, at + 1, work);
    numbers::put16(out, at + 3, store);
}

// All tasks, from the start of `out`.
fn put_tasks(out: &mut [u8], tasks: &[u16])
    requires { task_size * (length tasks.now / 2) ≤ length out.old }
    ensures { out.new ≡ stored out.old 0 (task_bytes (listed (length tasks.now / 2) (task_value tasks.now))) }
{
    for i in 0..tasks.len() / 2 {
        put_task(out, TASK_SIZE * i, tasks[2 * i], tasks[2 * i + 1]);
    }
}

pub fn put_link(out: &mut [u8], at: usize, source: u16, target: u16, cost: u16, bytes: u16)
    requires { (at + link_size ≤ length out.old) × (source < 256) × (target < 256) }
    ensures { out.new ≡ stored out.old at (0x45 ∷ source ∷ target ∷ (number_bytes 2 cost ++ number_bytes 2 bytes)) }
{
    out[at] = LINK_BYTE;
    out[at + 1] = source as u8;
    out[at + 2] = target as u8;
    numbers::put16(out, at + 3, cost);
    numbers::put16(out, at + 5, bytes);
}

// All links, from the start of `out`. Each names tasks by a byte.
fn put_links(out: &mut [u8], links: &[u16])
    requires { (link_size * (length links.now / 4) ≤ length out.old) × Narrow links.now }
    ensures { out.new ≡ stored out.old 0 (link_bytes (listed (length links.now / 4) (link_value links.now))) }
{
    for j in 0..links.len() / 4 {
        let k = 4 * j;
        put_link(
            out,
            LINK_SIZE * j,
            links[k],
            links[k + 1],
            links[k + 2],
            links[k + 3],
        );
    }
}

// The unpacking time behind the board command, where it is not 0.
fn put_unpacking(out: &mut [u8], unpacking: u16)
    requires { front_by unpacking false ≤ length out.old }
    ensures { out.new ≡ stored out.old board_size (unpacking_bytes unpacking) }
{
    if unpacking == 0 {
        return;
    }
    out[BOARD_SIZE] = UNPACKING_BYTE;
    numbers::put16(out, BOARD_SIZE + 1, unpacking);
}

// The cube at `at`, where the board is one.
fn put_cube(out: &mut [u8], at: usize, cube: bool)
    requires { at + pick cube cube_size 0 ≤ length out.old }
    ensures { out.new ≡ stored out.old at (cube_bytes cube) }
{
    if cube {
        out[at] = CUBE_BYTE;
    }
}

pub fn put_board(out: &mut [u8], processors: u8, limit: u32, unpacking: u16, cube: bool)
    requires { front_by unpacking cube ≤ length out.old }
    ensures { out.new ≡ stored out.old 0 (board_bytes processors limit unpacking cube) }
{
    out[0] = BOARD_BYTE;
    out[1] = processors;
    numbers::put32(out, 2, limit);
    put_unpacking(out, unpacking);
    put_cube(out, sheet::front(unpacking as usize, false), cube);
}

// The whole sheet at the front of `out`.
pub fn put_sheet(
    out: &mut [u8],
    processors: u8,
    limit: u32,
    unpacking: u16,
    cube: bool,
    tasks: &[u16],
    links: &[u16],
)
    requires links_in_bounds { (front_by unpacking cube + task_size * (length tasks.now / 2) + link_size * (length links.now / 4) + 1 ≤ length out.old) × Narrow links.now }
    requires tasks_len { (length tasks.now % 2 ≡ 0) × (length links.now % 4 ≡ 0) }
    ensures { out.new ≡ stored out.old 0 (value_bytes processors limit unpacking cube tasks.now links.now) }
{
    put_board(out, processors, limit, unpacking, cube);
    let start = sheet::front(unpacking as usize, cube);
    put_tasks(&mut out[start..], tasks);
    let at = start + TASK_SIZE * (tasks.len() / 2);
    put_links(&mut out[at..], links);
    let end = at + LINK_SIZE * (links.len() / 4);
    out[end] = END_BYTE;
}
