// Document 01, "Plots worked by hand": the plots marked ✱, rings, two walkers and moves of document 02, and rows for "Errors a surveyor would not notice". No code: the rows are
// in specs/Rows.antt; proofs/ has the proofs that the definitions give the figures of those rows.
#![tactic(auto)]
