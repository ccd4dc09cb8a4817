// Worked songs, computed on the definition, in proofs/. No code.
#![tactic(auto)]
