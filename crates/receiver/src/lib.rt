// What a receiver records (document 02, CR 9): fixes and outages, in floats; and the tests of refusals 33 and 34 on one float.
#![tactic(auto)]

ghost use Rattle.std.specs.Prelude.{◌≡◌};
ghost use Rattle.receiver.specs.Floats.{not_finite, below_zero};

// A position as the receiver tells it: east and north of the peg, in decimetres.
#[derive(Clone, Copy)]
pub struct Fix {
    pub east: f32,
    pub north: f32,
}

// One entry of a receiver's file: a fix, or an outage with its seconds.
#[derive(Clone, Copy)]
pub enum Entry {
    Fix(Fix),
    Outage(f32),
}

// By comparison and bits. The library's `is_finite` subtracts, and of an infinity that raises the processor's flag of an invalid operation, which a caller may trap.
#[tactic(auto, using(crate::proofs::Fields::nan_refused, crate::proofs::Fields::bits_tell))]
pub fn not_finite(f: f32) -> bool
    ensures { result ≡ not_finite f }
{
    f.is_nan() || f.to_bits() % 0x8000_0000 / 0x80_0000 == 255
}

pub fn below_zero(f: f32) -> bool
    ensures { result ≡ below_zero f }
{
    f < 0.0
}
