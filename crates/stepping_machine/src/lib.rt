// The machine, its programmes decoded into lent words beside its state, so that a step is short. Every function is safe on any words; what it gives is promised for
// words that represent a state.
#![tactic(auto)]

pub mod asks; // asks.rt: what is asked of a state
pub mod decoding; // decoding.rt: commands from bytes
pub mod load; // load.rt: the programmes, 28, and the fresh state
pub mod processors; // processors.rt: a processor as a record, and its step
pub mod settling; // settling.rt: steps until nobody can step
pub mod start; // start.rt: 21 to 26, 31 to 33, 37 and 28, or the fresh state
pub mod ways; // ways.rt: how long messages are under way on a cube
pub mod steps; // steps.rt: one choice, and a list of them

ghost use Rattle.std.specs.Prelude.{◌≡◌, ◌%◌, ◌<◌, length, set};

// The words of the work area before the machine's.
pub const BOARD: usize = 16;

// The layout of the words (specs/Layout). Word k has the index of processor k's next command.
pub const CLOCKS: usize = 16;

pub const STORES: usize = 32;

pub const FIRSTS: usize = 48;

pub const LASTS: usize = 64;

pub const COUNT: usize = 80;

pub const LINKS: usize = 82;

pub const UNPACKING: usize = 83;

pub const IDLE: usize = 95;

pub const STAMPS: usize = 96;

pub const NEEDS: usize = 1120;

pub const COMMANDS: usize = 1376;

pub const EXTENT: usize = 4976;

// The fields of a command's word, and the commands that words have room for.
pub const NUMBERS: usize = 262144;

pub const SPAN: usize = 2048;

pub const KINDS: usize = 536870912;

pub const TASKS: usize = 1024;

pub const LONGEST: usize = 16384;

// Puts the low 32 bits of x at i, a word that is there.
fn put(w: &mut [u32], i: usize, x: usize)
    requires { i < length w.old }
    ensures { w.new ≡ set w.old i (x % 4294967296) }
{
    w[i] = workspace::total::narrow(x);
}
