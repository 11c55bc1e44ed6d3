// How far the work of each task of an accepted bundle may grow before the finishing time moves.
#![tactic(auto)]

pub mod recording; // recording.rt: the check's own run, and in which order it did the commands
pub mod tracing; // tracing.rt: back over that order, the longest way to the end
pub mod reports; // reports.rt: the report of any bytes

// The notes of a run: as many steps as the machine's words have room for commands, and as many ends as a sheet has tasks at most.
pub const STEPS: usize = 3600;

pub const ENDS: usize = 256;
