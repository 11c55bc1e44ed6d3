// What the whole product promises, and the trial sheets of document 01: definitions and theorems, with no code of their own.
#![tactic(auto)]
