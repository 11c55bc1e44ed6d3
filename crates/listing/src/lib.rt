// The listing of a plan.
#![tactic(auto)]
