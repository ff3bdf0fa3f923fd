// Floats by their bits, and fixes of such floats.
ghost use Rattle.std.specs.Prelude.{◌≡◌};
ghost use Rattle.std.specs.Float.{nan};
ghost use Rattle.worked_entries.specs.BitFloats.{float_of, bits_of, fix_of};

use receiver::Fix;

pub(crate) const INFINITY: u32 = 0x7F80_0000;

// The bit of the sign.
pub(crate) const SIGN: u32 = 0x8000_0000;

// The bits of 2000.5, which goes up and past the limits.
pub(crate) const TOO_FAR: u32 = 0x44FA_1000;

// The bits that are told of what is not a number.
const NO_NUMBER: u32 = 0x7FC0_0000;

// The float with these bits; zero if they are those of what is not a number.
pub(crate) fn float_of(bits: u32) -> f32
    ensures { result ≡ float_of bits }
{
    if INFINITY < bits % SIGN {
        0.0
    } else {
        f32::from_bits(bits)
    }
}

#[tactic(auto, unfolding(crate::specs::BitFloats::bits_of))]
pub(crate) fn bits_of(f: f32) -> u32
    ensures { result ≡ bits_of f }
{
    if f.is_nan() {
        NO_NUMBER
    } else {
        f32::to_bits(f)
    }
}

// The fix with the bits of its east and of its north.
pub(crate) fn fix_of(east: u32, north: u32) -> Fix
    ensures { result ≡ fix_of east north }
{
    Fix {
        east: float_of(east),
        north: float_of(north),
    }
}

pub(crate) fn no_number() -> f32
    ensures { result ≡ nan }
{
    0.0 / 0.0
}
