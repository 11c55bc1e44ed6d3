// Every plan is accepted by the checker: theorems, with no code of their own.
#![tactic(auto)]
