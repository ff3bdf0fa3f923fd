// Document 02, CR 5: the figures of two walks of one plot, each a lent list of numbers, x and y in turn, that is read in place.
#![tactic(auto)]

mod distances;
mod figures;

pub use figures::walk_figures;
