// Document 01, "Cells": the sums of column indices, by which the sum of x over a run is computed. Those of their squares are read from `square_table`.
// The steps are unsigned, which divides in fewer instructions. They fit for every u16, and the subtraction does not go below 0, even where k is 0.
#![tactic(auto)]

ghost use Rattle.std.specs.Prelude.{◌≡◌, pos};
ghost use Rattle.column_sums.specs.SumsBelow.{index_sum};

// 0 + 1 + .. + (k - 1).
pub fn index_sum(k: u16) -> i64
    ensures { result ≡ pos (index_sum k) }
{
    let n = k as u64;
    ((n * n - n) / 2) as i64
}
