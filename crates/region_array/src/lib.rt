// The totals of a region whose runs a caller holds by value, in an array. Thin: the array's first runs are lent to `region_totals`.
#![tactic(auto)]

ghost use Rattle.std.specs.Prelude.{◌≡◌, take};
ghost use Rattle.cells.specs.RegionCall.{region_call, reading};

use cells::{RegionRefusal, Run, region_totals};
use outline::Totals;

// `region_totals` of the first `count` runs of an array, or of all of them if `count` is larger, for callers that hold their runs by value.
// The array has room for one run more than is allowed.
pub fn region_totals_of(runs: [Run; 4097], count: usize) -> Result<Totals, RegionRefusal>
    ensures { reading result ≡ region_call (take count runs) }
{
    region_totals(&runs[..count.min(4097)])
}
