// Strengthening can be relied on: what a greater strength changes in a job's rows (02, No. 11), proved in proofs/. No code.
#![tactic(auto)]
