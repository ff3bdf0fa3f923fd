// Refusal 28: walks and sheets handed in that no calls can have made. Each test takes every value of its types.
ghost use Rattle.std.specs.Prelude.{◌≡◌, not, ◌&&◌, ◌||◌, eqb, ◌≤◌};
ghost use Rattle.receiver.specs.Floats.{not_finite, below_zero};
ghost use Rattle.outline.specs.EdgeSums.{exceed};
ghost use Rattle.outline.specs.ListCall.{outside};
ghost use Rattle.outline.specs.WalkCalls.{share, impossible_walk, impossible_sheet};

use limits::{outside_limits, position_outside, totals_exceed};
use outline::{Sheet, Sizes, Totals, Walk};
use receiver::{below_zero, not_finite};

// The share of n points: n times 1/1,024 of each outline bound.
fn exceeds_share(t: Totals, points: u32) -> bool
    requires { points ≤ 1024 }
    ensures { result ≡ exceed (share points) t }
{
    let n = u64::from(points);
    let b = Sizes {
        a2: n * 8_000_000,
        x6: n * 32_000_000_000,
        y6: n * 32_000_000_000,
        xx12: n * 96_000_000_000_000,
        xy24: n * 192_000_000_000_000,
        yy12: n * 96_000_000_000_000,
    };
    totals_exceed(t, b)
}

// A walk with no point has no first and last point.
fn ends_outside(w: Walk) -> bool
    ensures { result ≡ (not (eqb w.count 0) && (outside w.first || outside w.last)) }
{
    w.count != 0 && (position_outside(w.first) || position_outside(w.last))
}

// Refusals 33 and 34 of the longest outage.
fn outage_refused(seconds: f32) -> bool
    ensures { result ≡ (not_finite seconds || below_zero seconds) }
{
    not_finite(seconds) | below_zero(seconds)
}

#[tactic(auto, unfolding(outline::specs::WalkCalls::impossible_walk))]
pub fn impossible_walk(w: Walk) -> bool
    ensures { result ≡ impossible_walk w }
{
    w.is_open
        && (1024 < w.count
            || ends_outside(w)
            || exceeds_share(w.totals, w.count)
            || outage_refused(w.outage))
}

#[tactic(auto, unfolding(outline::specs::WalkCalls::impossible_sheet))]
pub fn impossible_sheet(s: Sheet) -> bool
    ensures { result ≡ impossible_sheet s }
{
    64 < s.count || outside_limits(s.totals)
}
