// The distances from the points of one list to those of another. Squares stay in 32 bits: the compiler then takes several points at once.
ghost use Rattle.std.specs.Prelude.{◌≡◌, false, ◌<◌, pos, length};
ghost use Rattle.outline.specs.ListCall.{points as points_of, outside, any_outside};
ghost use Rattle.two_walks.specs.Distances.{squared_distance, to_nearest, squared_hausdorff};

use outline::Position;
use point_list::position_at;

fn squared_distance(p: Position, q: Position) -> i32
    requires p_value { outside p ≡ false }
    requires q_value { outside q ≡ false }
    ensures { result ≡ pos (squared_distance p q) }
{
    let dx = p.x - q.x;
    let dy = p.y - q.y;
    dx * dx + dy * dy
}

// A walk with a point at least, and none outside the limits.
#[derive(Clone, Copy)]
pub(crate) struct AcceptedWalk<'a> {
    pub(crate) points: &'a [i32],
    ghost some: { 0 < length (points_of points.now) },
    ghost inside: { any_outside (points_of points.now) ≡ false },
}

impl<'a> AcceptedWalk<'a> {
    // From p to the nearest of the points.
    fn to_nearest(self, p: Position) -> i32
        requires { outside p ≡ false }
        ensures { result ≡ pos (to_nearest (points_of self.entry.points.now) p) }
    {
        let mut least = squared_distance(p, position_at(self.points, 0));
        for k in 1..self.points.len() / 2 {
            least = least.min(squared_distance(p, position_at(self.points, k)));
        }
        least
    }

    // The greatest of what the points have to the nearest of the other walk.
    pub(crate) fn squared_hausdorff(self, other: AcceptedWalk) -> u32
        ensures { result ≡ squared_hausdorff (points_of self.entry.points.now) (points_of other.entry.points.now) }
    {
        let mut greatest: i32 = 0;
        for k in 0..self.points.len() / 2 {
            greatest = greatest.max(other.to_nearest(position_at(self.points, k)));
        }
        greatest as u32
    }
}
