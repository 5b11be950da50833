// Refreshes among the lines of an inspection, what each shows and leaves: definitions in specs/, laws in proofs/, no code.
#![tactic(auto)]
