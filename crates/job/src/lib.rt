// Jobs on record bytes: their definition and what is claimed of them, in specs/. No code.
#![tactic(auto)]
