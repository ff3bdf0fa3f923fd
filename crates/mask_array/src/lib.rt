// The runs of a mask for callers that hold their list of runs by value, in an array. Thin: the array's first records are lent to `mask_runs`.
#![tactic(auto)]

ghost use Rattle.std.specs.Prelude.{◌≡◌};
ghost use Rattle.masks.specs.MaskAnswers.{runs_reading};
ghost use Rattle.mask_array.specs.ArrayCall.{array_call};

use cells::Run;
use masks::{MaskRunsRefusal, mask_runs};

// An answer, and the array afterwards.
#[derive(Clone, Copy)]
pub struct MaskRunsReply {
    pub answer: Result<usize, MaskRunsRefusal>,
    pub runs: [Run; 4097],
}

// `mask_runs` into the first `held` records of an array, or into all of them if `held` is larger. The other records stay as they are.
// The array has room for one run more than is allowed.
pub fn mask_runs_of(words: &[u64], runs: [Run; 4097], held: usize) -> MaskRunsReply
    ensures { runs_reading result.answer result.runs ≡ array_call words.now runs held }
{
    let held = held.min(4097);
    let mut list = runs;
    let answer = mask_runs(words, &mut list[..held]);
    MaskRunsReply { answer, runs: list }
}
