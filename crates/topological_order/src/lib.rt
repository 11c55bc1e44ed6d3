// The tasks of a sheet in the work area in topological order, those without successors first, each with its level.
#![tactic(auto)]

mod level; // level.rt: the level of one task
pub mod peel; // peel.rt: the order, and the levels in it
pub mod queue; // queue.rt: a queue of tasks
