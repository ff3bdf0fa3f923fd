// The call on a whole list: an outline as one list of numbers, x and y in turn.
ghost use Rattle.std.specs.Prelude.{◌≡◌, false};
ghost use Rattle.outline.specs.EdgeSums.{outline_totals};
ghost use Rattle.outline.specs.ListCall.{points as points_of, wrong_length, any_outside, list_call};
ghost use Rattle.outline_answers.specs.ListAnswer.{reading};

use crate::add_edge;
use outline::{Totals, ZEROS};
use outline_answers::OutlineRefusal;
use point_list::{any_outside, position_at, wrong_length};

// The totals of an outline: each edge from one point to the next, and the closing edge.
fn sum_edges(points: &[i32]) -> Totals
    requires points_value { wrong_length points.now ≡ false }
    requires points_value_2 { any_outside (points_of points.now) ≡ false }
    ensures { result ≡ outline_totals (points_of points.now) }
{
    let n = points.len() / 2;
    let mut sum = ZEROS;
    for k in 1..n {
        sum = add_edge(sum, position_at(points, k - 1), position_at(points, k));
    }
    add_edge(sum, position_at(points, n - 1), position_at(points, 0))
}

// Two passes over the caller's own numbers: the limits, then the edges.
#[tactic(auto, unfolding(outline::specs::ListCall::list_call))]
pub fn outline_totals(points: &[i32]) -> Result<Totals, OutlineRefusal>
    ensures { reading result ≡ list_call points.now }
{
    if wrong_length(points) {
        return Err(OutlineRefusal::WrongLength);
    }
    if any_outside(points) {
        return Err(OutlineRefusal::OutsideLimits);
    }
    Ok(sum_edges(points))
}
