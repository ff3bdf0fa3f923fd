// Document 02, CR 7: a plot moved twice, and what a shift makes of its centre: definitions (specs/) and laws (proofs/). There is no code here.
#![tactic(auto)]
