// Programme bundles read: a bundle stays in its bytes, and its programmes' offsets are noted.
#![tactic(auto)]

pub mod bytes; // bytes.rt: from any bytes
