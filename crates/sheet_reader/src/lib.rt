// A task sheet read into the tables of the work area.
#![tactic(auto)]

pub mod bytes; // bytes.rt: from any bytes
pub mod values; // values.rt: from its values
