// Document 02, CR 10: third moments of an outline. The four totals; the definitions of their edge terms and of the call on a whole list (specs/), and the laws (proofs/). There is no code here.
#![tactic(auto)]

// The four totals of third order, by falling power of x: 20 × the integral of x³, 60 × those of x²y and xy², 20 × that of y³.
#[derive(Clone, Copy)]
pub struct ThirdTotals {
    pub xxx20: i64,
    pub xxy60: i64,
    pub xyy60: i64,
    pub yyy20: i64,
}

// The totals of no edge; and those of a refusal.
pub const NO_THIRDS: ThirdTotals = ThirdTotals {
    xxx20: 0,
    xxy60: 0,
    xyy60: 0,
    yyy20: 0,
};
