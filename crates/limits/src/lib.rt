// Tests of size that the calls share. Each takes every value of its types.
#![tactic(auto)]

ghost use Rattle.std.specs.Prelude.{◌≡◌};
ghost use Rattle.outline.specs.EdgeSums.{over, exceed, outline_bounds};
ghost use Rattle.outline.specs.ListCall.{outside};
ghost use Rattle.outline.specs.MapCall.{total_limits};

use outline::{Position, Sizes, Totals};

// The limit of a sheet's totals, of a mapped total and of one that a centre is asked of, by size.
pub const TOTAL_LIMIT: u64 = 1_000_000_000_000_000_000;

const TOTAL_LIMITS: Sizes = Sizes {
    a2: TOTAL_LIMIT,
    x6: TOTAL_LIMIT,
    y6: TOTAL_LIMIT,
    xx12: TOTAL_LIMIT,
    xy24: TOTAL_LIMIT,
    yy12: TOTAL_LIMIT,
};

// The outline bounds.
const OUTLINE_BOUNDS: Sizes = Sizes {
    a2: 8_192_000_000,
    x6: 32_768_000_000_000,
    y6: 32_768_000_000_000,
    xx12: 98_304_000_000_000_000,
    xy24: 196_608_000_000_000_000,
    yy12: 98_304_000_000_000_000,
};

// Whether z is greater in size than the bound.
#[tactic(auto, unfolding(outline::specs::EdgeSums::over))]
pub fn size_exceeds(z: i64, bound: u64) -> bool
    ensures { result ≡ over bound z }
{
    bound < z.unsigned_abs()
}

// Whether a coordinate is greater in size than the limit.
pub fn coordinate_beyond(z: i32, limit: u64) -> bool
    ensures { result ≡ over limit z }
{
    size_exceeds(i64::from(z), limit)
}

// Whether a coordinate is outside -2,000 to 2,000.
pub fn coordinate_outside(z: i32) -> bool
    ensures { result ≡ over 2000 z }
{
    coordinate_beyond(z, 2000)
}

// Refusal 1: whether one of the two coordinates is outside.
#[tactic(auto, unfolding(outline::specs::ListCall::beyond))]
pub fn position_outside(p: Position) -> bool
    ensures { result ≡ outside p }
{
    coordinate_outside(p.x) || coordinate_outside(p.y)
}

// Whether some total is greater in size than its bound.
#[tactic(auto, unfolding(outline::specs::EdgeSums::exceed))]
pub fn totals_exceed(t: Totals, bounds: Sizes) -> bool
    ensures { result ≡ exceed bounds t }
{
    size_exceeds(t.a2, bounds.a2)
        | size_exceeds(t.x6, bounds.x6)
        | size_exceeds(t.y6, bounds.y6)
        | size_exceeds(t.xx12, bounds.xx12)
        | size_exceeds(t.xy24, bounds.xy24)
        | size_exceeds(t.yy12, bounds.yy12)
}

// Whether some total is outside the outline bounds.
pub fn outside_bounds(t: Totals) -> bool
    ensures { result ≡ exceed outline_bounds t }
{
    totals_exceed(t, OUTLINE_BOUNDS)
}

// Whether some total is larger in size than a sheet may have.
pub fn outside_limits(t: Totals) -> bool
    ensures { result ≡ exceed total_limits t }
{
    totals_exceed(t, TOTAL_LIMITS)
}
