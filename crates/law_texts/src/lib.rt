// Two terminals, and a write that is sent again, of the lines of a replay and of whole texts: no code.
#![tactic(auto)]
