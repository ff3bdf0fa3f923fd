// The calls on a mask answered as a number and a buffer: 0 or the number of a refusal, with zeros for the totals or the count.
#![tactic(auto)]

ghost use Rattle.std.specs.Prelude.{◌≡◌, []};
ghost use Rattle.mask_cells.specs.MaskCalls.{mask_totals_call};
ghost use Rattle.masks.specs.MaskAnswers.{runs_reading};
ghost use Rattle.outline_replies.specs.OutlineReply.{totals_reply};
ghost use Rattle.mask_replies.specs.MaskReply.{count_reply, count_capped};

use masks::{MaskRunsRefusal, mask_totals};
use outline_replies::put_answer;
use refusals::Answer;
use replies::put_values;

// The call for the totals of a mask: 0 or 31, and the six totals.
pub fn mask_totals_reply(words: &[u64], out: &mut [i64]) -> u32
    ensures { record { number = result; buffer = out.new } ≡ totals_reply (mask_totals_call words.now) out.old }
{
    put_answer(mask_totals(words), out)
}

// An answer of the call for the runs of a mask: 0, 8 or 31, and how many runs were written. No call writes more than 4,096.
pub fn mask_runs_reply(answer: Result<usize, MaskRunsRefusal>, out: &mut [i64]) -> u32
    ensures { record { number = result; buffer = out.new } ≡ count_reply (count_capped (runs_reading answer [])) out.old }
{
    let count = answer.unwrap_or(0).min(4096);
    put_values(&[count as i64], answer.number(), out)
}
