// Document 02, CR 10: the third moments of an outline, given as one lent list of numbers, x and y in turn, that is read in place.
#![tactic(auto)]

ghost use Rattle.std.specs.Prelude.{◌≡◌};
ghost use Rattle.third_order.specs.ThirdCall.{third_call};
ghost use Rattle.third_moments.specs.ThirdAnswers.{third_number, reading};

mod sums;

use point_list::{any_beyond, any_outside, wrong_length};
use refusals::Refusal;
use sums::sum_edges;
use third_order::ThirdTotals;

// Why the call for third moments has no totals.
#[derive(Clone, Copy, Debug, PartialEq, Eq)]
pub enum ThirdRefusal {
    WrongLength,
    OutsideLimits,
    TooFarForThirdMoments,
}

impl Refusal for ThirdRefusal {
    ghost numbered = { third_number };

    fn number(self) -> u32 {
        match self {
            ThirdRefusal::WrongLength => 2,
            ThirdRefusal::OutsideLimits => 1,
            ThirdRefusal::TooFarForThirdMoments => 35,
        }
    }
}

// Passes over the caller's own numbers: the limits, one after the other, then the edges.
#[tactic(auto, unfolding(third_order::specs::ThirdCall::third_call))]
pub fn third_moments(points: &[i32]) -> Result<ThirdTotals, ThirdRefusal>
    ensures { reading result ≡ third_call points.now }
{
    if wrong_length(points) {
        return Err(ThirdRefusal::WrongLength);
    }
    if any_outside(points) {
        return Err(ThirdRefusal::OutsideLimits);
    }
    if any_beyond(points, 500) {
        return Err(ThirdRefusal::TooFarForThirdMoments);
    }
    Ok(sum_edges(points))
}
