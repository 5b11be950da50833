// Both laws of law_terminals, of what users call: the program's own read and write, the library's, and request lines. No code.
#![tactic(auto)]
