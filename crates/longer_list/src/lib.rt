// Document 02, CR 5: the part of the caller's lists that a comparison of two walks hands back, itself and no copy.
#![tactic(auto)]

ghost use Rattle.std.specs.Prelude.{◌≡◌, not, eqb};
ghost use Rattle.outline.specs.ListCall.{list_call};
ghost use Rattle.two_walks.specs.Comparison.{comparison_number, lent, handed_back};

use point_list::{any_outside, wrong_length};

// Whether the call on a whole list refuses the list.
#[tactic(auto, unfolding(outline::specs::ListCall::list_call))]
fn is_refused(points: &[i32]) -> bool
    ensures { result ≡ not (eqb (list_call points.now).number 0) }
{
    wrong_length(points) || any_outside(points)
}

#[tactic(auto, unfolding(two_walks::specs::Comparison::comparison_number))]
fn either_refused(first: &[i32], second: &[i32]) -> bool
    ensures { result ≡ not (eqb (comparison_number first.now second.now) 0) }
{
    is_refused(first) || is_refused(second)
}

// The longer walk's own list, the first on a tie; the empty start of the first where either is refused.
#[tactic(auto, unfolding(two_walks::specs::Comparison::part_of, two_walks::specs::Comparison::handed_back))]
pub fn longer_walk<'a>(first: &'a [i32], second: &'a [i32]) -> &'a [i32]
    ensures { lent result ≡ handed_back (lent first.entry) (lent second.entry) }
{
    if either_refused(first, second) {
        &first[..0]
    } else if first.len() / 2 < second.len() / 2 {
        second
    } else {
        first
    }
}
