// The map call on six totals: document 01, "Maps", with refusals 3, 4 and 5.
#![tactic(auto)]

ghost use Rattle.std.specs.Prelude.{◌≡◌, ◌+ℤ◌, ◌*ℤ◌, cond};
ghost use Rattle.outline.specs.EdgeSums.{over, exceed, outline_bounds};
ghost use Rattle.outline.specs.private.Fit.{Fit};
ghost use Rattle.outline.specs.MapCall.{disallowed, determinant, first_moment, second_moment, mixed_moment, brackets, scaled, total_limit, total_limits, map_call};
ghost use Rattle.affine.specs.Answer.{map_number, reading};
ghost use Rattle.affine.specs.private.Limits.{AtMost, RowWithin, MapWithin};

use limits::{TOTAL_LIMIT, size_exceeds};
use outline::{AffineMap, Totals};
use refusals::Refusal;

// Why totals are not mapped: a number of the map is outside its limits, a total is outside the outline bounds, or a mapped one is outside its limits.
#[derive(Clone, Copy, Debug, PartialEq, Eq)]
pub enum MapRefusal {
    MapOutsideLimits,
    TotalsOutsideBounds,
    ResultOutsideLimits,
}

impl Refusal for MapRefusal {
    ghost numbered = { map_number };

    fn number(self) -> u32 {
        match self {
            MapRefusal::MapOutsideLimits => 3,
            MapRefusal::TotalsOutsideBounds => 4,
            MapRefusal::ResultOutsideLimits => 5,
        }
    }
}

// The limits of a map's coefficients a, b, g, h and of its shifts e, f, by size.
const COEFFICIENT_LIMIT: u64 = 2;

const SHIFT_LIMIT: u64 = 2000;

const LARGEST: i64 = TOTAL_LIMIT as i64;

// Refusal 3. All six tests are made and joined by `|`, so the code has one way through and no branch.
fn map_outside_limits(m: AffineMap) -> bool
    ensures { result ≡ disallowed m }
{
    size_exceeds(m.a as i64, COEFFICIENT_LIMIT)
        | size_exceeds(m.b as i64, COEFFICIENT_LIMIT)
        | size_exceeds(m.g as i64, COEFFICIENT_LIMIT)
        | size_exceeds(m.h as i64, COEFFICIENT_LIMIT)
        | size_exceeds(m.e as i64, SHIFT_LIMIT)
        | size_exceeds(m.f as i64, SHIFT_LIMIT)
}

fn map_determinant(m: AffineMap) -> i64
    requires { MapWithin m }
    ensures { result ≡ determinant m }
{
    (m.a * m.h - m.b * m.g) as i64
}

// The bracket of X6 with a, b, e, and of Y6 with g, h, f.
fn first_moment(a: i64, b: i64, e: i64, t: Totals) -> i64
    requires row_within { RowWithin a b e }
    requires fit { Fit outline_bounds t }
    ensures { result ≡ first_moment a b e t }
{
    a * t.x6 + b * t.y6 + 3 * e * t.a2
}

// The totals added up, each with a weight: at most 5.64·10^18 in size.
fn weighted(xx12: i64, yy12: i64, xy24: i64, x6: i64, y6: i64, a2: i64, t: Totals) -> i64
    requires at_most { AtMost 8 xx12 }
    requires at_most_2 { AtMost 8 yy12 }
    requires at_most_3 { AtMost 8 xy24 }
    requires at_most_4 { AtMost 32000 x6 }
    requires at_most_5 { AtMost 32000 y6 }
    requires at_most_6 { AtMost 48000000 a2 }
    requires fit { Fit outline_bounds t }
    ensures { result ≡ xx12 *ℤ t.xx12 +ℤ yy12 *ℤ t.yy12 +ℤ xy24 *ℤ t.xy24 +ℤ x6 *ℤ t.x6 +ℤ y6 *ℤ t.y6 +ℤ a2 *ℤ t.a2 }
{
    xx12 * t.xx12 + yy12 * t.yy12 + xy24 * t.xy24 + x6 * t.x6 + y6 * t.y6 + a2 * t.a2
}

// The bracket of XX12 with a, b, e, and of YY12 with g, h, f.
fn second_moment(a: i64, b: i64, e: i64, t: Totals) -> i64
    requires row_within { RowWithin a b e }
    requires fit { Fit outline_bounds t }
    ensures { result ≡ second_moment a b e t }
{
    weighted(a * a, b * b, a * b, 4 * a * e, 4 * b * e, 6 * (e * e), t)
}

// The bracket of XY24.
fn mixed_moment(a: i64, b: i64, e: i64, g: i64, h: i64, f: i64, t: Totals) -> i64
    requires row_within { RowWithin a b e }
    requires row_within_2 { RowWithin g h f }
    requires fit { Fit outline_bounds t }
    ensures { result ≡ mixed_moment a b e g h f t }
{
    weighted(
        2 * a * g,
        2 * b * h,
        a * h + b * g,
        4 * (g * e + a * f),
        4 * (h * e + b * f),
        12 * e * f,
        t,
    )
}

// What stands behind d in each of the six formulas.
fn bracket_totals(m: AffineMap, t: Totals) -> Totals
    requires map_within { MapWithin m }
    requires fit { Fit outline_bounds t }
    ensures { result ≡ brackets m t }
{
    let a = m.a as i64;
    let b = m.b as i64;
    let g = m.g as i64;
    let h = m.h as i64;
    let e = m.e as i64;
    let f = m.f as i64;
    Totals {
        a2: t.a2,
        x6: first_moment(a, b, e, t),
        y6: first_moment(g, h, f, t),
        xx12: second_moment(a, b, e, t),
        xy24: mixed_moment(a, b, e, g, h, f, t),
        yy12: second_moment(g, h, f, t),
    }
}

// Whether a total is over the limit of refusal 5. By two comparisons, which the compiler makes one: by the absolute value the map call took a third longer.
#[tactic(auto, unfolding(outline::specs::EdgeSums::over))]
fn over_limit(v: i64) -> bool
    ensures { result ≡ over total_limit v }
{
    v < -LARGEST || LARGEST < v
}

// d × v, where it is within the limit of refusal 5. Times 8, a bracket may not fit 64 bits, so the product is made only of one within the limit.
fn product(d: i64, v: i64) -> Option<i64>
    requires { AtMost 8 d }
    ensures { result ≡ cond (over total_limit (d *ℤ v)) None (Some (d *ℤ v)) }
{
    if d == 0 {
        return Some(0);
    }
    if over_limit(v) {
        return None;
    }
    let product = d * v;
    if over_limit(product) {
        return None;
    }
    Some(product)
}

// Each of the six times d, where refusal 5 lets them all through.
fn scaled_by(d: i64, s: Totals) -> Option<Totals>
    requires { AtMost 8 d }
    ensures { result ≡ cond (exceed total_limits (scaled d s)) None (Some (scaled d s)) }
{
    Some(Totals {
        a2: product(d, s.a2)?,
        x6: product(d, s.x6)?,
        y6: product(d, s.y6)?,
        xx12: product(d, s.xx12)?,
        xy24: product(d, s.xy24)?,
        yy12: product(d, s.yy12)?,
    })
}

// The map call: the totals of the mapped outline, from the totals of the outline.
pub fn map_totals(m: AffineMap, t: Totals) -> Result<Totals, MapRefusal>
    ensures { reading result ≡ map_call m t }
{
    if map_outside_limits(m) {
        return Err(MapRefusal::MapOutsideLimits);
    }
    if limits::outside_bounds(t) {
        return Err(MapRefusal::TotalsOutsideBounds);
    }
    let d = map_determinant(m);
    let s = bracket_totals(m, t);
    scaled_by(d, s).ok_or(MapRefusal::ResultOutsideLimits)
}
