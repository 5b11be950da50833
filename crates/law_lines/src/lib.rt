// Refreshes among the lines of a replay, what each shows and leaves: definitions in specs/, laws in proofs/, no code.
#![tactic(auto)]
