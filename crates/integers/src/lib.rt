// Whole numbers: rounding by halves up (specs/), and lemmas on integers of bounded size and on sums (proofs/). There is no code here.
#![tactic(auto)]
