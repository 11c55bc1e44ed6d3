// Paths in a sheet: definitions and laws; their code is in `levelling`.
#![tactic(auto)]
