// The pass that gives back store: each release at its earliest right position in an accepted bundle.
#![tactic(auto)]

pub mod laying; // laying.rt: bytes laid over what was lent, as far as it reaches
pub mod queueing; // queueing.rt: the releases in queues, by the commands that they belong behind
pub mod inserting; // inserting.rt: a bundle's commands, and behind each the releases that are due there
pub mod passes; // passes.rt: the pass of any bytes
