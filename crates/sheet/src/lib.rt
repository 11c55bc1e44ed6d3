// A task sheet in the tables of the work area.
#![tactic(auto)]

ghost use Rattle.std.specs.Prelude.{◌≡◌, ◌+◌, ◌≤◌, eqb};
ghost use Rattle.folds.specs.Folds.{pick};
ghost use Rattle.sheet.specs.Sizes.{board_size, unpacking_size, cube_size, front_by};

pub mod hops; // hops.rt: how far processors of a cube are apart
pub mod pairs; // pairs.rt: a bit for each pair of tasks that a link joins
pub mod tables; // tables.rt: the tables' numbers

// The byte that each command of a sheet begins with: specs/Format has the same numbers.
pub const BOARD_BYTE: u8 = 0x4D;

pub const UNPACKING_BYTE: u8 = 0x55;

pub const CUBE_BYTE: u8 = 0x48;

pub const TASK_BYTE: u8 = 0x54;

pub const LINK_BYTE: u8 = 0x45;

pub const END_BYTE: u8 = 0x51;

// How many bytes each command of a sheet has: specs/Sizes has the same numbers.
pub const BOARD_SIZE: usize = 6;

pub const UNPACKING_SIZE: usize = 3;

pub const CUBE_SIZE: usize = 1;

pub const TASK_SIZE: usize = 5;

pub const LINK_SIZE: usize = 7;

// Where the tasks of a board that is no cube begin.
fn timed(unpacking: usize) -> usize
    ensures { (result ≡ board_size + pick (eqb unpacking 0) 0 unpacking_size) × (result ≤ board_size + unpacking_size) }
{
    if unpacking == 0 {
        BOARD_SIZE
    } else {
        BOARD_SIZE + UNPACKING_SIZE
    }
}

// Where the tasks begin.
pub fn front(unpacking: usize, cube: bool) -> usize
    ensures { (result ≡ front_by unpacking cube) × (result ≤ board_size + unpacking_size + cube_size) }
{
    let start = timed(unpacking);
    if cube { start + CUBE_SIZE } else { start }
}
