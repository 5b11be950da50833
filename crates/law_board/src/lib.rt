// What a refresh shows, of the board's line, of the library's call and of texts: definitions in specs/, laws in proofs/, no code.
#![tactic(auto)]
