// Task sheets made from a seed, so that a load can be made again.
#![tactic(auto)]

pub mod bytes; // bytes.rt: the tables' sheet written
pub mod draws; // draws.rt: two states, and what is drawn from them
pub mod loads; // loads.rt: tasks and links by draws, in the tables
