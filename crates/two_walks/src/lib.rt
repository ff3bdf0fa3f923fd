// Document 02, CR 5: two walks of one plot. The figures that compare them; the definitions of the comparison (specs/) and its laws (proofs/). There is no code here.
#![tactic(auto)]

use outline::{Totals, ZEROS};

// Six differences of totals, first walk minus second; and two squared distances in square decimetres, the field's forward and backward one: from the points of the
// first walk to the second, and from those of the second to the first.
#[derive(Clone, Copy)]
pub struct Figures {
    pub differences: Totals,
    pub forward: u32,
    pub backward: u32,
}

// Both walks alike in every figure; and the figures of a refusal.
pub const NO_FIGURES: Figures = Figures {
    differences: ZEROS,
    forward: 0,
    backward: 0,
};
