// The planner.
#![tactic(auto)]
