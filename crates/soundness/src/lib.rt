// Soundness: the guided run of an accepted configuration arrives in the target. Definitions and proofs, in specs/. There is no code here.
#![tactic(auto)]
