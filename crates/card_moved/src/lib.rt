// The nodes of one system among several, whose stores may begin at any block, and the card of its own that each has: no code.
#![tactic(auto)]
