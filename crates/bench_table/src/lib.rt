// Document 01's bench table, computed on the definition, in proofs/. No code.
#![tactic(auto)]
