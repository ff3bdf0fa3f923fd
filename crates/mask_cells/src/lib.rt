// The cells of a mask, its longest runs and the outcomes of the calls on it: definitions (specs/) and laws (proofs/). There is no code here.
#![tactic(auto)]
