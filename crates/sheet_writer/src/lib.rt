// A task sheet written: its bytes from values, and its values from the tables.
#![tactic(auto)]

pub mod unload; // unload.rt: tables to values
pub mod writer; // writer.rt: values to bytes
