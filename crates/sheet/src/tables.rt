// The tables of a sheet in the work area: accessors that speak of the sheet, and the stores that add a task or a link.
ghost use Rattle.std.specs.Prelude.{◌≡◌, false, [], ◌+◌, ◌<◌, ◌≤◌, length};
ghost use Rattle.workspace.specs.Area.{fixed};
ghost use Rattle.sheet.specs.Sheet.{task_count, link_count, work_of, store_of, source_of, target_of, cost_of, bytes_of};
ghost use Rattle.sheet.specs.Sizes.{board_size, unpacking_size, cube_size, front_of};
ghost use Rattle.sheet.specs.Tables.{sheet_in, Loaded, LoadedOf, task_words, link_words, unpacking_words, cube_words};

use workspace::{CUBE, LIMIT, LINK_COUNT, LINKS, PROCESSORS, SIZES, TASK_COUNT, TASKS, UNPACKING};

pub fn tasks(w: &[u32]) -> usize
    requires { Loaded w.now }
    ensures { (result ≡ task_count (sheet_in w.now)) × (result ≤ 256) }
{
    workspace::word(w, TASK_COUNT)
}

pub fn links(w: &[u32]) -> usize
    requires { Loaded w.now }
    ensures { (result ≡ link_count (sheet_in w.now)) × (result ≤ 1024) }
{
    workspace::word(w, LINK_COUNT)
}

pub fn processors(w: &[u32]) -> usize
    requires { Loaded w.now }
    ensures { (result ≡ (sheet_in w.now).processors) × (result ≤ 16) }
{
    workspace::word(w, PROCESSORS)
}

pub fn limit(w: &[u32]) -> usize
    requires { Loaded w.now }
    ensures { (result ≡ (sheet_in w.now).limit) × (result < 4294967296) }
{
    workspace::word(w, LIMIT)
}

pub fn unpacking(w: &[u32]) -> usize
    requires { Loaded w.now }
    ensures { (result ≡ (sheet_in w.now).unpacking) × (result ≤ 65535) }
{
    workspace::word(w, UNPACKING)
}

pub fn cube(w: &[u32]) -> bool
    requires { Loaded w.now }
    ensures { result ≡ (sheet_in w.now).cube }
{
    workspace::word(w, CUBE) == 1
}

// Where the tasks begin in the sheet's bytes.
pub fn front(w: &[u32]) -> usize
    requires { Loaded w.now }
    ensures { (result ≡ front_of (sheet_in w.now)) × (result ≤ board_size + unpacking_size + cube_size) }
{
    crate::front(unpacking(w), cube(w))
}

pub fn work(w: &[u32], t: usize) -> usize
    requires loaded { Loaded w.now }
    requires t_bound { t < task_count (sheet_in w.now) }
    ensures { (result ≡ work_of (sheet_in w.now) t) × (result ≤ 65535) }
{
    workspace::word(w, TASKS + t) % 65536
}

pub fn store(w: &[u32], t: usize) -> usize
    requires loaded { Loaded w.now }
    requires t_bound { t < task_count (sheet_in w.now) }
    ensures { (result ≡ store_of (sheet_in w.now) t) × (result ≤ 65535) }
{
    workspace::word(w, TASKS + t) / 65536
}

pub fn source(w: &[u32], l: usize) -> usize
    requires loaded { Loaded w.now }
    requires l_bound { l < link_count (sheet_in w.now) }
    ensures { (result ≡ source_of (sheet_in w.now) l) × (result < task_count (sheet_in w.now)) }
{
    workspace::word(w, LINKS + l) % 256
}

pub fn target(w: &[u32], l: usize) -> usize
    requires loaded { Loaded w.now }
    requires l_bound { l < link_count (sheet_in w.now) }
    ensures { (result ≡ target_of (sheet_in w.now) l) × (result < task_count (sheet_in w.now)) }
{
    workspace::word(w, LINKS + l) / 256 % 256
}

pub fn cost(w: &[u32], l: usize) -> usize
    requires loaded { Loaded w.now }
    requires l_bound { l < link_count (sheet_in w.now) }
    ensures { (result ≡ cost_of (sheet_in w.now) l) × (result ≤ 65535) }
{
    workspace::word(w, LINKS + l) / 65536
}

pub fn size(w: &[u32], l: usize) -> usize
    requires loaded { Loaded w.now }
    requires l_bound { l < link_count (sheet_in w.now) }
    ensures { (result ≡ bytes_of (sheet_in w.now) l) × (result ≤ 65535) }
{
    workspace::word(w, SIZES + l)
}

// A sheet without tasks, without a time for unpacking, and not a cube.
pub fn put_board(w: &mut [u32], processors: u8, limit: u32)
    requires { (fixed ≤ length w.old) × (processors ≤ 16) }
    ensures { LoadedOf (record { processors = processors; limit = limit; unpacking = 0; cube = false; tasks = []; links = [] }) w.old w.new }
{
    w[TASK_COUNT] = 0;
    w[LINK_COUNT] = 0;
    w[PROCESSORS] = processors as u32;
    w[LIMIT] = limit;
    w[UNPACKING] = 0;
    w[CUBE] = 0;
}

// The time for unpacking.
pub fn put_unpacking(w: &mut [u32], unpacking: u16)
    requires { fixed ≤ length w.old }
    ensures { w.new ≡ unpacking_words w.old unpacking }
{
    w[UNPACKING] = unpacking as u32;
}

// The board is a cube.
pub fn put_cube(w: &mut [u32])
    requires { fixed ≤ length w.old }
    ensures { w.new ≡ cube_words w.old }
{
    w[CUBE] = 1;
}

// Task n, behind those before it.
pub fn put_task(w: &mut [u32], n: usize, work: u16, store: u16)
    requires { (fixed ≤ length w.old) × (n < 256) }
    ensures { w.new ≡ task_words w.old n work store }
{
    w[TASKS + n] = work as u32 + 65536 * store as u32;
    w[TASK_COUNT] = (n + 1) as u32;
}

// Link m, behind those before it.
pub fn put_link(w: &mut [u32], m: usize, source: u16, target: u16, cost: u16, bytes: u16)
    requires { (fixed ≤ length w.old) × (m < 1024) × (source < 256) × (target < 256) }
    ensures { w.new ≡ link_words w.old m source target cost bytes }
{
    w[LINKS + m] = source as u32 + 256 * target as u32 + 65536 * cost as u32;
    w[SIZES + m] = bytes as u32;
    w[LINK_COUNT] = (m + 1) as u32;
}
