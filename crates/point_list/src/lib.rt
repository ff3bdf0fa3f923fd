// A list of numbers, x and y in turn, as points: its length, its points by index, and whether one is beyond a limit. Each function takes every list.
#![tactic(auto)]

ghost use Rattle.std.specs.Prelude.{◌≡◌, get_or};
ghost use Rattle.outline.specs.ListCall.{points as points_of, wrong_length, any_beyond, any_outside};
ghost use Rattle.outline.specs.WalkCalls.{origin};

use limits::coordinate_beyond;
use outline::{ORIGIN, Position};

// Refusal 2.
#[tactic(auto, using(crate::proofs::Pairs::length_by_numbers))]
pub fn wrong_length(points: &[i32]) -> bool
    ensures { result ≡ wrong_length points.now }
{
    let count = points.len() / 2;
    points.len() % 2 == 1 || count < 3 || 1024 < count
}

// Point k of the list; the origin where it has fewer points.
#[tactic(auto, using(crate::proofs::Pairs::point_by_numbers, crate::proofs::Pairs::no_point))]
pub fn position_at(points: &[i32], k: usize) -> Position
    ensures { result ≡ get_or (points_of points.now) k origin }
{
    if points.len() / 2 <= k {
        return ORIGIN;
    }
    Position {
        x: points[2 * k],
        y: points[2 * k + 1],
    }
}

// Whether some point of the list has a coordinate greater in size than the limit. Every number that has its pair is looked at, without a branch: the compiler then tests several at once.
pub fn any_beyond(points: &[i32], limit: u64) -> bool
    ensures { result ≡ any_beyond limit (points_of points.now) }
{
    let paired = points.len() / 2 * 2;
    let mut found = false;
    for z in &points[..paired] {
        found = found | coordinate_beyond(*z, limit);
    }
    found
}

// Refusal 1: whether some point of the list is outside the limits.
pub fn any_outside(points: &[i32]) -> bool
    ensures { result ≡ any_outside (points_of points.now) }
{
    any_beyond(points, 2000)
}
