// Each promise of a library admits one answer, as proofs/ proves: no code.
#![tactic(auto)]
