// The point of a receiver's fix (document 02, CR 9): each float's exact value rounded to a whole number, halves up. By the float's bits, in whole numbers: a float's own sums round.
#![tactic(auto)]

ghost use Rattle.std.specs.Prelude.{◌≡◌, ◌≤◌, ◌<◌, ◌^◌, false};
ghost use Rattle.outline.specs.FixCall.{fix_not_finite, fix_point_call};
ghost use Rattle.outline_answers.specs.WalkAnswers.{entry_number};
ghost use Rattle.receiver.specs.Floats.{not_finite};
ghost use Rattle.fixes.specs.FixAnswers.{fix_number, reading};
ghost use Rattle.fixes.specs.private.Coordinates.{rounded_size, sized_coordinate, coordinate_of};

use outline::Position;
use outline_answers::EntryRefusal;
use receiver::{Fix, not_finite};
use refusals::Refusal;

// Why a fix has no point: a float is infinite or not a number, or the point is outside the limits.
#[derive(Clone, Copy, Debug, PartialEq, Eq)]
pub enum FixRefusal {
    NotFinite,
    OutsideLimits,
}

impl Refusal for FixRefusal {
    ghost numbered = { fix_number };

    fn number(self) -> u32 {
        match self {
            FixRefusal::NotFinite => 33,
            FixRefusal::OutsideLimits => 1,
        }
    }
}

// The same refusal, of the entry that the fix is.
impl From<FixRefusal> for EntryRefusal {
    ghost from_gives = { λ fix entry. entry_number entry ≡ fix_number fix };

    fn from(refusal: FixRefusal) -> EntryRefusal {
        match refusal {
            FixRefusal::NotFinite => EntryRefusal::NotFinite,
            FixRefusal::OutsideLimits => EntryRefusal::OutsideLimits,
        }
    }
}

// The size of ± q / 2^d rounded, halves up: where the number is negative, a half goes towards 0.
#[tactic(auto, using(crate::proofs::Quotients::half_is), unfolding(crate::specs::private::Coordinates::rounded_size))]
fn rounded_size(negative: bool, q: u32, d: u32) -> u32
    requires q_bound { q < 2 ^ 24 }
    requires le_d { 1 ≤ d }
    requires d_bound { d ≤ 24 }
    ensures { result ≡ rounded_size negative q d }
{
    let half = 1u32 << (d - 1);
    if negative {
        (q + half - 1) >> d
    } else {
        (q + half) >> d
    }
}

// The coordinate with a sign and a size.
#[tactic(auto, using(crate::proofs::CoordinateLaws::sized_outside, crate::proofs::CoordinateLaws::inside_above, crate::proofs::CoordinateLaws::inside_below))]
fn sized_coordinate(negative: bool, size: u32) -> Result<i32, FixRefusal>
    ensures { result ≡ sized_coordinate negative size }
{
    if 2000 < size {
        return Err(FixRefusal::OutsideLimits);
    }
    if negative {
        return Ok(-(size as i32));
    }
    Ok(size as i32)
}

// A float is ± q / 2^(150 - e), with e the exponent's field of its bits and q its 24 digits: 2^23 or more where e is over 149, and less than a half where e is under 126.
#[tactic(auto, using(receiver::proofs::Fields::finite_has_bits, crate::proofs::CoordinateLaws::outside_by_field, crate::proofs::CoordinateLaws::zero_by_field, crate::proofs::CoordinateLaws::sized_by_fields))]
fn coordinate(f: f32) -> Result<i32, FixRefusal>
    requires finite { not_finite f ≡ false }
    ensures { result ≡ coordinate_of f }
{
    let bits = f32::to_bits(f);
    let negative = 0x8000_0000 <= bits;
    let exponent = bits % 0x8000_0000 / 0x80_0000;
    if 149 < exponent {
        return Err(FixRefusal::OutsideLimits);
    }
    if exponent < 126 {
        return Ok(0);
    }
    let q = bits % 0x80_0000 + 0x80_0000;
    sized_coordinate(negative, rounded_size(negative, q, 150 - exponent))
}

// 33 of either float.
#[tactic(auto, unfolding(outline::specs::FixCall::fix_not_finite))]
fn fix_not_finite(f: Fix) -> bool
    ensures { result ≡ fix_not_finite f }
{
    not_finite(f.east) || not_finite(f.north)
}

// The point of a fix: east becomes x, and north y. 33 of either comes before 1 of either.
#[tactic(auto, unfolding(outline::specs::FixCall::fix_point_call, outline::specs::FixCall::fix_not_finite, outline::specs::ListCall::beyond, crate::specs::private::Coordinates::coordinate_of, crate::specs::private::Coordinates::coordinate_at))]
pub fn fix_point(f: Fix) -> Result<Position, FixRefusal>
    ensures { reading result ≡ fix_point_call f }
{
    if fix_not_finite(f) {
        return Err(FixRefusal::NotFinite);
    }
    let x = coordinate(f.east)?;
    let y = coordinate(f.north)?;
    Ok(Position { x, y })
}
