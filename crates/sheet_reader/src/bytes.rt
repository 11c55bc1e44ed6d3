// Reads a sheet from any bytes, command by command, into the tables of the work area.
ghost use Rattle.std.specs.Prelude.{◌≡◌, false, ◌+◌, ◌*◌, ◌≤◌, ◌<◌, length, get_or, drop};
ghost use Rattle.std.proofs.Math.Option.{some};
ghost use Rattle.numbers.specs.Number.{number_at};
ghost use Rattle.commands.specs.Commands.{judge, judge_kind};
ghost use Rattle.refusals.specs.Refusals.{fault_of};
ghost use Rattle.workspace.specs.Area.{fixed, link_count_at, task_count_at};
ghost use Rattle.sheet.specs.Sizes.{board_size, task_size, link_size};
ghost use Rattle.sheet.specs.Format.{board, unwired, unpack, wire, task, link, sheet_format, fresh, read_form};
ghost use Rattle.sheet.specs.Tables.{sheet_in, pair_in, Loaded, Filling, task_words};
ghost use Rattle.sheet.specs.Faults.{begun, task_fault, link_fault};
ghost use Rattle.sheet_reader.specs.Answers.{outcome, outcome_of, is_unpacking, is_cube, is_task, is_link, closed_of, ReadIs};
ghost use Rattle.sheet_reader.specs.Scanning.{Absent, BoardRead, Walking, Linking, added_words};

use refusals::{Fault, Refusal};
use sheet::{
    BOARD_BYTE, BOARD_SIZE, CUBE_BYTE, CUBE_SIZE, END_BYTE, LINK_BYTE, LINK_SIZE, TASK_BYTE,
    TASK_SIZE, UNPACKING_BYTE, UNPACKING_SIZE, pairs, tables,
};

// The kind of the next command behind the board command.
#[derive(Clone, Copy)]
pub enum Next {
    Unpacking,
    Cube,
    Task,
    Link,
    End,
}

// What refuses a task of this work behind so many others, if anything does.
pub fn task_fault(tasks: usize, work: u16) -> Result<(), Fault>
    ensures { fault_of result ≡ task_fault tasks work }
{
    if 256 <= tasks {
        return Err(Fault::OverFull);
    }
    if work == 0 {
        return Err(Fault::Range);
    }
    Ok(())
}

// What refuses a link between these tasks, if anything does.
pub fn link_fault(
    w: &[u32],
    tasks: usize,
    links: usize,
    source: usize,
    target: usize,
) -> Result<(), Fault>
    requires filling { Filling w.now }
    requires tasks_value { (tasks ≡ get_or w.now task_count_at 0) × (links ≡ get_or w.now link_count_at 0) }
    ensures { fault_of result ≡ link_fault (sheet_in w.now) source target }
{
    if 1024 <= links {
        return Err(Fault::OverFull);
    }
    if tasks <= source {
        return Err(Fault::LooseLink);
    }
    if tasks <= target {
        return Err(Fault::LooseLink);
    }
    if pairs::joined(w, source, target) {
        return Err(Fault::DoubledLink);
    }
    Ok(())
}

// Whether the board has neither a cube nor a task nor a link behind it.
fn unwired(w: &[u32], tasks: usize, links: usize) -> bool
    requires loaded { Loaded w.now }
    requires tasks_value { (tasks ≡ get_or w.now task_count_at 0) × (links ≡ get_or w.now link_count_at 0) }
    ensures { result ≡ unwired (sheet_in w.now) }
{
    if tables::cube(w) {
        return false;
    }
    if tasks != 0 {
        return false;
    }
    links == 0
}

// The unpacking time at `at`, which is in turn only directly behind the board: what refuses it, if anything does.
fn unpacking_at(bytes: &[u8], at: usize, w: &[u32], tasks: usize, links: usize) -> Result<(), Fault>
    requires loaded { Loaded w.now }
    requires tasks_value { (tasks ≡ get_or w.now task_count_at 0) × (links ≡ get_or w.now link_count_at 0) × (at < length bytes.now) }
    ensures { outcome unpack result ≡ judge_kind sheet_format (begun (sheet_in w.now)) (some unpack) (drop (at + 1) bytes.now) }
{
    if tables::unpacking(w) != 0 {
        return Err(Fault::SheetOutOfTurn);
    }
    if !unwired(w, tasks, links) {
        return Err(Fault::SheetOutOfTurn);
    }
    if bytes.len() - at < UNPACKING_SIZE {
        return Err(Fault::CutSheet);
    }
    if reader::get16(bytes, at + 1) == 0 {
        return Err(Fault::Range);
    }
    Ok(())
}

// A cube, which is in turn only behind the board and its unpacking time.
fn cube_at(bytes: &[u8], at: usize, w: &[u32], tasks: usize, links: usize) -> Result<(), Fault>
    requires loaded { Loaded w.now }
    requires tasks_value { (tasks ≡ get_or w.now task_count_at 0) × (links ≡ get_or w.now link_count_at 0) }
    ensures { outcome wire result ≡ judge_kind sheet_format (begun (sheet_in w.now)) (some wire) (drop (at + 1) bytes.now) }
{
    if unwired(w, tasks, links) {
        return Ok(());
    }
    Err(Fault::SheetOutOfTurn)
}

// The task command at `at`.
fn task_at(bytes: &[u8], at: usize, w: &[u32], tasks: usize, links: usize) -> Result<(), Fault>
    requires loaded { Loaded w.now }
    requires tasks_value { (tasks ≡ get_or w.now task_count_at 0) × (links ≡ get_or w.now link_count_at 0) × (at < length bytes.now) }
    ensures { outcome task result ≡ judge_kind sheet_format (begun (sheet_in w.now)) (some task) (drop (at + 1) bytes.now) }
{
    if links != 0 {
        return Err(Fault::SheetOutOfTurn);
    }
    if bytes.len() - at < TASK_SIZE {
        return Err(Fault::CutSheet);
    }
    task_fault(tasks, reader::get16(bytes, at + 1))
}

// The link command at `at`.
fn link_at(bytes: &[u8], at: usize, w: &[u32], tasks: usize, links: usize) -> Result<(), Fault>
    requires filling { Filling w.now }
    requires tasks_value { (tasks ≡ get_or w.now task_count_at 0) × (links ≡ get_or w.now link_count_at 0) × (at < length bytes.now) }
    ensures { outcome link result ≡ judge_kind sheet_format (begun (sheet_in w.now)) (some link) (drop (at + 1) bytes.now) }
{
    if bytes.len() - at < LINK_SIZE {
        return Err(Fault::CutSheet);
    }
    let source = reader::get8(bytes, at + 1);
    let target = reader::get8(bytes, at + 2);
    link_fault(w, tasks, links, source, target)
}

// The command at `at`, behind the board command; or what refuses it.
fn next_at(bytes: &[u8], at: usize, w: &[u32], tasks: usize, links: usize) -> Result<Next, Fault>
    requires filling { Filling w.now }
    requires tasks_value { (tasks ≡ get_or w.now task_count_at 0) × (links ≡ get_or w.now link_count_at 0) × (at ≤ length bytes.now) }
    ensures { outcome_of result ≡ judge sheet_format (begun (sheet_in w.now)) (drop at bytes.now) }
{
    if bytes.len() <= at {
        return Err(Fault::CutSheet);
    }
    match reader::get8(bytes, at) as u8 {
        TASK_BYTE => {
            task_at(bytes, at, w, tasks, links)?;
            Ok(Next::Task)
        }
        LINK_BYTE => {
            link_at(bytes, at, w, tasks, links)?;
            Ok(Next::Link)
        }
        END_BYTE => Ok(Next::End),
        UNPACKING_BYTE => {
            unpacking_at(bytes, at, w, tasks, links)?;
            Ok(Next::Unpacking)
        }
        CUBE_BYTE => {
            cube_at(bytes, at, w, tasks, links)?;
            Ok(Next::Cube)
        }
        BOARD_BYTE => Err(Fault::SheetOutOfTurn),
        _ => Err(Fault::StrangeSheetCommand),
    }
}

// The board command at the head, by its operands: what refuses it, if anything does.
fn board_at(bytes: &[u8]) -> Result<(), Fault>
    requires { 0 < length bytes.now }
    ensures { outcome board result ≡ judge_kind sheet_format fresh (some board) (drop 1 bytes.now) }
{
    if bytes.len() < BOARD_SIZE {
        return Err(Fault::CutSheet);
    }
    let processors = reader::get8(bytes, 1);
    if processors < 1 || 16 < processors {
        return Err(Fault::Range);
    }
    Ok(())
}

// The command at the head, which has to be a board's: what refuses it, if anything does.
fn opening(bytes: &[u8]) -> Result<(), Fault>
    ensures { outcome board result ≡ judge sheet_format fresh bytes.now }
{
    if bytes.len() == 0 {
        return Err(Fault::CutSheet);
    }
    match reader::get8(bytes, 0) as u8 {
        BOARD_BYTE => board_at(bytes),
        TASK_BYTE => Err(Fault::SheetOutOfTurn),
        LINK_BYTE => Err(Fault::SheetOutOfTurn),
        END_BYTE => Err(Fault::SheetOutOfTurn),
        UNPACKING_BYTE => Err(Fault::SheetOutOfTurn),
        CUBE_BYTE => Err(Fault::SheetOutOfTurn),
        _ => Err(Fault::StrangeSheetCommand),
    }
}

// Puts the task at `at` into the tables.
fn add_task(bytes: &[u8], at: usize, w: &mut [u32], tasks: usize)
    requires { (at + task_size ≤ length bytes.now) × (fixed ≤ length w.old) × (tasks < 256) }
    ensures { w.new ≡ task_words w.old tasks (number_at 2 bytes.now (at + 1)) (number_at 2 bytes.now (at + 3)) }
{
    tables::put_task(
        w,
        tasks,
        reader::get16(bytes, at + 1),
        reader::get16(bytes, at + 3),
    );
}

// Puts the link at `at` into the tables.
fn add_link(bytes: &[u8], at: usize, w: &mut [u32], links: usize)
    requires link_size_in_bounds { (at + link_size ≤ length bytes.now) × (fixed ≤ length w.old) × (links < 1024) }
    requires at_value { pair_in w.old (get_or bytes.now (at + 1) 0) (get_or bytes.now (at + 2) 0) ≡ false }
    ensures { w.new ≡ added_words bytes.now at w.old links }
{
    let source = reader::get8(bytes, at + 1);
    let target = reader::get8(bytes, at + 2);
    let cost = reader::get16(bytes, at + 3);
    let size = reader::get16(bytes, at + 5);
    pairs::join(w, source, target);
    tables::put_link(w, links, source as u16, target as u16, cost, size);
}

// What the end command at `at` closes.
fn closing(bytes: &[u8], at: usize) -> Result<(), Refusal>
    requires { at < length bytes.now }
    ensures { result ≡ closed_of (length bytes.now) at }
{
    let past = at + 1;
    if past < bytes.len() {
        return Err(Fault::SheetTail.at(past));
    }
    Ok(())
}

// Whether an unpacking time stands at `at` that nothing refuses, where there is no task and no link yet.
fn is_unpacking(bytes: &[u8], at: usize, w: &[u32]) -> bool
    requires loaded { Loaded w.now }
    requires task_count_at_value { (get_or w.now task_count_at 0 ≡ 0) × (get_or w.now link_count_at 0 ≡ 0) × (at ≤ length bytes.now) }
    ensures { result ≡ is_unpacking (judge sheet_format (begun (sheet_in w.now)) (drop at bytes.now)) }
{
    if bytes.len() <= at {
        return false;
    }
    if reader::get8(bytes, at) as u8 != UNPACKING_BYTE {
        return false;
    }
    unpacking_at(bytes, at, w, 0, 0).is_ok()
}

// Whether a cube stands at `at` that nothing refuses, where there is no task and no link yet.
fn is_cube(bytes: &[u8], at: usize, w: &[u32]) -> bool
    requires loaded { Loaded w.now }
    requires task_count_at_value { (get_or w.now task_count_at 0 ≡ 0) × (get_or w.now link_count_at 0 ≡ 0) × (at ≤ length bytes.now) }
    ensures { result ≡ is_cube (judge sheet_format (begun (sheet_in w.now)) (drop at bytes.now)) }
{
    if bytes.len() <= at {
        return false;
    }
    if reader::get8(bytes, at) as u8 != CUBE_BYTE {
        return false;
    }
    cube_at(bytes, at, w, 0, 0).is_ok()
}

// Whether a task stands at `at` that nothing refuses, where there is no link yet.
fn is_task(bytes: &[u8], at: usize, w: &[u32], tasks: usize) -> bool
    requires loaded { Loaded w.now }
    requires tasks_value { (tasks ≡ get_or w.now task_count_at 0) × (get_or w.now link_count_at 0 ≡ 0) × (at ≤ length bytes.now) }
    ensures { result ≡ is_task (judge sheet_format (begun (sheet_in w.now)) (drop at bytes.now)) }
{
    if bytes.len() <= at {
        return false;
    }
    if reader::get8(bytes, at) as u8 != TASK_BYTE {
        return false;
    }
    task_at(bytes, at, w, tasks, 0).is_ok()
}

// Whether a link stands at `at` that nothing refuses.
fn is_link(bytes: &[u8], at: usize, w: &[u32], tasks: usize, links: usize) -> bool
    requires filling { Filling w.now }
    requires tasks_value { (tasks ≡ get_or w.now task_count_at 0) × (links ≡ get_or w.now link_count_at 0) × (at ≤ length bytes.now) }
    ensures { result ≡ is_link (judge sheet_format (begun (sheet_in w.now)) (drop at bytes.now)) }
{
    if bytes.len() <= at {
        return false;
    }
    if reader::get8(bytes, at) as u8 != LINK_BYTE {
        return false;
    }
    link_at(bytes, at, w, tasks, links).is_ok()
}

// Adds the unpacking time behind the board command, where there is one; the answer is the offset behind it.
fn add_unpacking(bytes: &[u8], w: &mut [u32]) -> usize
    requires { Walking (read_form bytes.now) bytes.now w.old w.old 0 0 board_size }
    ensures { Walking (read_form bytes.now) bytes.now w.old w.new 0 0 result × Absent unpack bytes.now w.new result }
{
    if is_unpacking(bytes, BOARD_SIZE, w) {
        tables::put_unpacking(w, reader::get16(bytes, BOARD_SIZE + 1));
        return BOARD_SIZE + UNPACKING_SIZE;
    }
    BOARD_SIZE
}

// Adds the unpacking time and the cube behind the board command, where they are; the answer is the offset behind them.
fn add_board(bytes: &[u8], w: &mut [u32]) -> usize
    requires { Walking (read_form bytes.now) bytes.now w.old w.old 0 0 board_size }
    ensures { Walking (read_form bytes.now) bytes.now w.old w.new 0 0 result × BoardRead bytes.now w.new result }
{
    let at = add_unpacking(bytes, w);
    if is_cube(bytes, at, w) {
        tables::put_cube(w);
        return at + CUBE_SIZE;
    }
    at
}

// Adds the tasks from `start` on, behind the board; the answer is how many there are. A loop for each kind of command tells the
// usual commands from the rest by tests that go one way.
fn add_tasks(bytes: &[u8], start: usize, w: &mut [u32]) -> usize
    requires { Walking (read_form bytes.now) bytes.now w.old w.old 0 0 start × BoardRead bytes.now w.old start }
    ensures { Walking (read_form bytes.now) bytes.now w.old w.new result 0 (start + task_size * result) × BoardRead bytes.now w.new (start + task_size * result) × Absent task bytes.now w.new (start + task_size * result) }
{
    let mut at = start;
    let mut tasks = 0;
    while is_task(bytes, at, w, tasks) {
        add_task(bytes, at, w, tasks);
        tasks += 1;
        at += TASK_SIZE;
    }
    tasks
}

// Adds the links from `start` on, behind so many tasks; the answer is how many there are.
fn add_links(bytes: &[u8], start: usize, w: &mut [u32], tasks: usize) -> usize
    requires { Linking (read_form bytes.now) bytes.now w.old w.old tasks 0 start }
    ensures { Linking (read_form bytes.now) bytes.now w.old w.new tasks result (start + link_size * result) × Absent link bytes.now w.new (start + link_size * result) }
{
    let mut at = start;
    let mut links = 0;
    while is_link(bytes, at, w, tasks, links) {
        add_link(bytes, at, w, links);
        links += 1;
        at += LINK_SIZE;
    }
    links
}

// What stands at `at`, behind the tasks and the links: the end, or what is refused. Nothing of the board, and no task or link,
// is left that nothing refuses.
fn rest(bytes: &[u8], at: usize, w: &[u32], tasks: usize, links: usize) -> Result<(), Refusal>
    requires linking { Linking (read_form bytes.now) bytes.now w.now w.now tasks links at }
    requires absent { Absent link bytes.now w.now at }
    ensures { ReadIs (read_form bytes.now) w.now w.now result }
{
    match refusals::at(next_at(bytes, at, w, tasks, links), at)? {
        Next::End => closing(bytes, at),
        Next::Link => Err(Fault::DoubledLink.at(at)),
        _ => Err(Fault::SheetOutOfTurn.at(at)),
    }
}

// Reads command by command behind the board command: what more there is of the board, the tasks, whose rows are then cleared for the
// pairs that the links join, the links, and what is left.
fn walk(bytes: &[u8], w: &mut [u32]) -> Result<(), Refusal>
    requires { Walking (read_form bytes.now) bytes.now w.old w.old 0 0 board_size }
    ensures { ReadIs (read_form bytes.now) w.old w.new result }
{
    let start = add_board(bytes, w);
    let tasks = add_tasks(bytes, start, w);
    pairs::blank(w, tasks);
    let at = start + TASK_SIZE * tasks;
    let links = add_links(bytes, at, w, tasks);
    rest(bytes, at + LINK_SIZE * links, w, tasks, links)
}

// Reads any bytes as a sheet: the first of refusals 1 to 8, or the sheet in the tables.
pub fn read(bytes: &[u8], w: &mut [u32]) -> Result<(), Refusal>
    requires { fixed ≤ length w.old }
    ensures { ReadIs (read_form bytes.now) w.old w.new result }
{
    refusals::at(opening(bytes), 0)?;
    tables::put_board(w, reader::get8(bytes, 1) as u8, reader::get32(bytes, 2));
    walk(bytes, w)
}
