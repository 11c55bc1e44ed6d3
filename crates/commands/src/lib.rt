// Reading bytes command by command, for any format: definitions and laws, with no code of their own.
#![tactic(auto)]
