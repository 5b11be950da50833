// Two terminals at one card: what is proved of whole requests, and of runs of the program's own `read` and `write`: no code.
#![tactic(auto)]
