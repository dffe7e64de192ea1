// The figures of 01 marked [p], as one statement about the rules: specs/Figures.antt, proved in proofs/Computed.antt. No code.
#![tactic(auto)]
