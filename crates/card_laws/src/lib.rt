// The cards that accepted additions and limits produce, and what is proved of them: no code.
#![tactic(auto)]
