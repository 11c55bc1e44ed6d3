// What each function of the interface does once its areas are long enough: from bytes to a length, or a refusal.
#![tactic(auto)]

pub mod bundles; // bundles.rt: a bundle read, written and checked
pub mod ending; // ending.rt: what is returned for how a part ends
pub mod plans; // plans.rt: the planner and its listing
pub mod reports; // reports.rt: how far works may drift
pub mod runs; // runs.rt: the machine started, run and looked at
pub mod sheets; // sheets.rt: a sheet read, written and made from a seed, its levels
