// A write that is sent again, by what users call: the program's write, the library's, request lines. No code.
#![tactic(auto)]
