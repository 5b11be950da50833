// What a card's bytes keep, and refusal 8 to other bytes: definitions in specs/, laws in proofs/, no code.
#![tactic(auto)]
