// The search for the least time of a small sheet.
#![tactic(auto)]

pub mod codes; // codes.rt: an arrangement as one number
pub mod writing; // writing.rt: the bundle of an arrangement
pub mod judging; // judging.rt: one arrangement judged
pub mod choosing; // choosing.rt: the better of two, and the best so far
pub mod walking; // walking.rt: an arrangement that is begun, and what one task more makes of it
pub mod walk; // walk.rt: all arrangements that are looked at
pub mod whole; // whole.rt: from the bytes of a sheet to the best bundle
