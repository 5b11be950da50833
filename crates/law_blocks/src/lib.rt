// What a block of a random store holds, and so what a refresh shows in its lane: definitions in specs/, laws in proofs/, no code.
#![tactic(auto)]
