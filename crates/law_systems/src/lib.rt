// One system on two cards, and two systems on one: what is proved of whole requests, wherever a system's stores lie: no code.
#![tactic(auto)]
