// The checker: 21 to 30 of a bundle, for a sheet that was read.
#![tactic(auto)]

pub mod bytes; // bytes.rt: of any bytes
pub mod whole; // whole.rt: 29, 30 and the whole
