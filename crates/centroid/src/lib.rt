// The centre of six totals: an exact quotient, rounded to a whole number with halves up.
#![tactic(auto)]

ghost use Rattle.std.specs.Prelude.{◌≡◌};
ghost use Rattle.integers.specs.Rounding.{round_half_up};
ghost use Rattle.centroid.specs.Centroid.{outline_centroid_call};
ghost use Rattle.centroid.specs.Answers.{centroid_number, reading};
ghost use Rattle.centroid.specs.private.Quotient.{QuotientBounds};

use outline::Totals;
use refusals::Refusal;

// A centre, in decimetres.
#[derive(Clone, Copy, Debug, PartialEq, Eq)]
pub struct Centre {
    pub x: i64,
    pub y: i64,
}

// Why totals have no centre: one is outside its limits, or the area is 0.
#[derive(Clone, Copy, Debug, PartialEq, Eq)]
pub enum CentroidRefusal {
    OutsideLimits,
    NoArea,
}

impl Refusal for CentroidRefusal {
    ghost numbered = { centroid_number };

    fn number(self) -> u32 {
        match self {
            CentroidRefusal::OutsideLimits => 11,
            CentroidRefusal::NoArea => 27,
        }
    }
}

// n / d, halves rounded up: (2n + d) / 2d, rounded down.
fn nearest(n: i64, d: i64) -> i64
    requires { QuotientBounds n d }
    ensures { result ≡ round_half_up n d }
{
    (2 * n + d).div_euclid(2 * d)
}

// The centre of an outline, of a sheet or of cells, by their totals. In decimetres: the side of a cell counts as one.
pub fn outline_centroid(t: Totals) -> Result<Centre, CentroidRefusal>
    ensures { reading result ≡ outline_centroid_call t }
{
    if limits::outside_limits(t) {
        return Err(CentroidRefusal::OutsideLimits);
    }
    if t.a2 == 0 {
        return Err(CentroidRefusal::NoArea);
    }
    let sign = t.a2.signum();
    let d = 3 * t.a2.abs();
    Ok(Centre {
        x: nearest(sign * t.x6, d),
        y: nearest(sign * t.y6, d),
    })
}
