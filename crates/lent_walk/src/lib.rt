// A walk that the caller holds and lends: the one call on it that is made for every point. The walk is copied out, `point` is called, and what
// it leaves is stored back.
#![tactic(auto)]

ghost use Rattle.std.specs.Prelude.{◌≡◌};
ghost use Rattle.outline.specs.WalkCalls.{point_call};
ghost use Rattle.outline_answers.specs.WalkAnswers.{point_reading};

use outline::Walk;
use outline_answers::{PointRefusal, WalkReply};
use outline_calls::point;

pub fn point_in(w: &mut Walk, x: i32, y: i32) -> Result<(), PointRefusal>
    ensures { point_reading (record { answer = result; walk = w.new }) ≡ point_call w.old (record { x = x; y = y }) }
{
    let reply = point(*w, x, y);
    *w = reply.walk;
    reply.answer
}

// The same by value, for callers that hold the walk as a value.
pub fn point_by(mut w: Walk, x: i32, y: i32) -> WalkReply<PointRefusal>
    ensures { point_reading result ≡ point_call w (record { x = x; y = y }) }
{
    let answer = point_in(&mut w, x, y);
    WalkReply { answer, walk: w }
}
