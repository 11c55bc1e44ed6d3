// Programme bundles as values: written from them, and copied to them.
#![tactic(auto)]

pub mod values; // values.rt: copies the commands of a bundle as values
pub mod writer; // writer.rt: writes a bundle that is given by its values
