// The point of a receiver's fix answered as a number and a buffer: 0; or the number of a refusal, with two zeros; or 100 where the buffer is too short.
#![tactic(auto)]

ghost use Rattle.std.specs.Prelude.{◌≡◌, [], ◌∷◌};
ghost use Rattle.outline.specs.FixCall.{fix_point_call};
ghost use Rattle.fixes.specs.FixAnswers.{reading};
ghost use Rattle.fix_replies.specs.FixReply.{fix_reply};

use fixes::{FixRefusal, fix_point};
use outline::Position;
use receiver::Fix;
use refusals::Answer;
use replies::put_values;

// The point's x and y that an answer tells.
fn point_values(answer: Result<Position, FixRefusal>) -> [i64; 2]
    ensures { result ≡ (reading answer).point.x ∷ (reading answer).point.y ∷ [] }
{
    match answer {
        Ok(p) => [i64::from(p.x), i64::from(p.y)],
        Err(_) => [0, 0],
    }
}

// The point of the fix of two floats: 0, 33 or 1, and the point's x and y.
pub fn fix_point_reply(east: f32, north: f32, out: &mut [i64]) -> u32
    ensures { record { number = result; buffer = out.new } ≡ fix_reply (fix_point_call (record { east = east; north = north })) out.old }
{
    let answer = fix_point(Fix { east, north });
    put_values(&point_values(answer), answer.number(), out)
}
