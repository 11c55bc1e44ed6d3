// What stands where in a bundle: each task once (26), the right messages (31 to 33) and the right releases (37).
#![tactic(auto)]

pub mod notes; // notes.rt: one pass over the bundle that notes how often and where each command stands
pub mod rules; // rules.rt: 26 and 31 to 33 by the notes
pub mod releases; // releases.rt: 37 by the notes
pub mod judge; // judge.rt: 21 to 26, 31 to 33 and 37 of any bytes
pub mod view; // view.rt: where a sheet's numbers lie in its bytes
