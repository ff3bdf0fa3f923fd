// The comparison of two walks answered as a number and a buffer: 0; or the number of a refusal, with ten zeros; or 100 where the buffer is too short.
#![tactic(auto)]

ghost use Rattle.std.specs.Prelude.{◌≡◌};
ghost use Rattle.two_walks.specs.Comparison.{figures_call, part_of};
ghost use Rattle.comparison_replies.specs.ComparisonReply.{comparison_reply};

use comparison::walk_figures;
use longer_list::longer_walk;
use refusals::Answer;
use replies::put_values;
use two_walks::NO_FIGURES;

// 0, 1 or 2, and ten values: the six differences, the two distances, which list is handed back, and how many numbers of it.
pub fn compare_walks_reply<'a>(first: &'a [i32], second: &'a [i32], out: &mut [i64]) -> u32
    ensures { record { number = result; buffer = out.new } ≡ comparison_reply (figures_call first.now second.now) (part_of first.now second.now) out.old }
{
    let answer = walk_figures(first, second);
    let part = longer_walk(first, second);
    let f = answer.unwrap_or(NO_FIGURES);
    let d = f.differences;
    let values = [
        d.a2,
        d.x6,
        d.y6,
        d.xx12,
        d.xy24,
        d.yy12,
        f.forward as i64,
        f.backward as i64,
        // which list the part is of: it has more numbers than the first list only where it is the second
        i64::from(first.len() < part.len()),
        part.len() as i64,
    ];
    put_values(&values, answer.number(), out)
}
