// What a card tells in messages: it is read back, and the flag says whether more follow: definitions in specs/, laws in proofs/, no code.
#![tactic(auto)]
