// An answer of the call on a list of runs, as a number and a buffer: 0 or the number of a refusal, with zeros for the totals.
#![tactic(auto)]

ghost use Rattle.std.specs.Prelude.{◌≡◌};
ghost use Rattle.cells.specs.RegionCall.{reading};
ghost use Rattle.region_replies.specs.RegionReply.{region_reply, index_capped};

use cells::RegionRefusal;
use outline::Totals;
use outline_answers::totals_of;
use refusals::Answer;
use replies::put_values;

// The index of a run that an answer tells, 0 but with 6 and 7.
pub fn index_of_region(answer: Result<Totals, RegionRefusal>) -> usize
    ensures { result ≡ (reading answer).index }
{
    match answer {
        Err(RegionRefusal::BadRun(index) | RegionRefusal::OutOfOrder(index)) => index,
        Err(RegionRefusal::TooManyRuns) | Ok(_) => 0,
    }
}

// 0, 6, 7 or 8, the six totals, and with 6 or 7 the index. No list that is refused with an index has more than 4,096 runs.
pub fn region_reply(answer: Result<Totals, RegionRefusal>, out: &mut [i64]) -> u32
    ensures { record { number = result; buffer = out.new } ≡ region_reply (index_capped (reading answer)) out.old }
{
    let t = totals_of(answer);
    let index = index_of_region(answer).min(4096);
    let values = [t.a2, t.x6, t.y6, t.xx12, t.xy24, t.yy12, index as i64];
    put_values(&values, answer.number(), out)
}
