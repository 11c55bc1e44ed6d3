// The least time for small sheets: what it is, and theorems; the code that finds it is in `search`.
#![tactic(auto)]
