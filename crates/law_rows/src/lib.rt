// The worked rows of the rules, in proofs/Rows.antt: one statement, proved by computing, and no code.
#![tactic(auto)]
