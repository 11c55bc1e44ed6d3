// A programme bundle: definitions and laws, how long its commands are, and which of them are of a link or of a task.
#![tactic(auto)]

pub mod kinds; // kinds.rt: commands of a link and of a task, by their bytes

// The byte of each command of a bundle, as a value: specs/Format has the same numbers.
pub const OPEN_BYTE: u16 = 0x50;

pub const RUN_BYTE: u16 = 0x52;

pub const SEND_BYTE: u16 = 0x53;

pub const RECEIVE_BYTE: u16 = 0x56;

pub const RELEASE_BYTE: u16 = 0x46;

pub const DISCARD_BYTE: u16 = 0x47;

pub const CLAIM_BYTE: u16 = 0x5A;

// How many bytes each command of a bundle has: specs/Sizes has the same numbers.
pub const SHORT_SIZE: usize = 2;

pub const LONG_SIZE: usize = 3;

pub const CLAIM_SIZE: usize = 5;
