// A write that is sent again at once: what is proved of whole requests. No code.
#![tactic(auto)]
