// The third moments of an outline answered as a number and a buffer: 0; or the number of a refusal, with four zeros; or 100 where the buffer is too short.
#![tactic(auto)]

ghost use Rattle.std.specs.Prelude.{◌≡◌};
ghost use Rattle.third_order.specs.ThirdCall.{third_call};
ghost use Rattle.third_replies.specs.ThirdReply.{third_reply};

use refusals::Answer;
use replies::put_values;
use third_moments::third_moments;
use third_order::NO_THIRDS;

// The call on a whole outline, x and y in turn: 0, 2, 1 or 35, and the four totals of third order.
pub fn third_moments_reply(points: &[i32], out: &mut [i64]) -> u32
    ensures { record { number = result; buffer = out.new } ≡ third_reply (third_call points.now) out.old }
{
    let answer = third_moments(points);
    let t = answer.unwrap_or(NO_THIRDS);
    let values = [t.xxx20, t.xxy60, t.xyy60, t.yyy20];
    put_values(&values, answer.number(), out)
}
