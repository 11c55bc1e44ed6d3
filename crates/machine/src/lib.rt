// The machine: definitions, and that all orders of steps end alike. Its code is in `loaded` and `starting`; the checker's, which leaves the commands in their bytes, in `state`.
#![tactic(auto)]
