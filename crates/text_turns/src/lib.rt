// What holds of a program over a text from turn to turn, for any machine. No code.
#![tactic(auto)]
