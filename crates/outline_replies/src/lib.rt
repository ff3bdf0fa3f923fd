// What an ended walk tells, zeros with every refusal; and the calls on outlines answered as a number and a buffer.
#![tactic(auto)]

ghost use Rattle.std.specs.Prelude.{◌≡◌};
ghost use Rattle.refusals.specs.Numbers.{number_of};
ghost use Rattle.outline.specs.ListCall.{list_call};
ghost use Rattle.outline.specs.MapCall.{map_call};
ghost use Rattle.outline_answers.specs.ListAnswer.{totals_of};
ghost use Rattle.outline_answers.specs.WalkAnswers.{end_totals, end_outage};
ghost use Rattle.centroid.specs.Centroid.{outline_centroid_call};
ghost use Rattle.outline_replies.specs.OutlineReply.{totals_reply, centre_reply};

use centroid::Centre;
use outline::{AffineMap, Totals, ZEROS};
use outline_answers::{EndRefusal, Ended, totals_of};
use refusals::{Answer, Refusal};
use replies::put_values;

// What a refused end tells.
const NOTHING_ENDED: Ended = Ended {
    totals: ZEROS,
    outage: 0.0,
};

// The values of a refused centre.
const NO_CENTRE: Centre = Centre { x: 0, y: 0 };

// The totals and the longest outage that the end of a walk tells, zeros and plus zero with every refusal.
pub fn ended_of(answer: Result<Ended, EndRefusal>) -> Ended
    ensures { result ≡ record { totals = end_totals answer; outage = end_outage answer } }
{
    answer.unwrap_or(NOTHING_ENDED)
}

// A number and six totals, told as a number and a buffer.
pub fn put_totals(number: u32, t: Totals, out: &mut [i64]) -> u32
    ensures { record { number = result; buffer = out.new } ≡ totals_reply (record { number = number; totals = t }) out.old }
{
    let values = [t.a2, t.x6, t.y6, t.xx12, t.xy24, t.yy12];
    put_values(&values, number, out)
}

// The totals of an answer or the number of its refusal, of whatever call, told as a number and a buffer.
pub fn put_answer<R: Refusal + Copy>(answer: Result<Totals, R>, out: &mut [i64]) -> u32
    ensures { record { number = result; buffer = out.new } ≡ totals_reply (record { number = number_of R.numbered answer; totals = totals_of answer }) out.old }
{
    put_totals(answer.number(), totals_of(answer), out)
}

// The call on a whole outline, x and y in turn: 0, 1 or 2, and the six totals.
pub fn outline_totals_reply(points: &[i32], out: &mut [i64]) -> u32
    ensures { record { number = result; buffer = out.new } ≡ totals_reply (list_call points.now) out.old }
{
    put_answer(outline_calls::outline_totals(points), out)
}

// The map call on six totals: 0, 3, 4 or 5, and the six mapped totals.
pub fn map_totals_reply(m: AffineMap, t: Totals, out: &mut [i64]) -> u32
    ensures { record { number = result; buffer = out.new } ≡ totals_reply (map_call m t) out.old }
{
    put_answer(affine::map_totals(m, t), out)
}

// The centre of six totals, of an outline, a sheet or cells: 0, 11 or 27, and the centre's x and y.
pub fn outline_centroid_reply(t: Totals, out: &mut [i64]) -> u32
    ensures { record { number = result; buffer = out.new } ≡ centre_reply (outline_centroid_call t) out.old }
{
    let answer = centroid::outline_centroid(t);
    let centre = answer.unwrap_or(NO_CENTRE);
    put_values(&[centre.x, centre.y], answer.number(), out)
}
