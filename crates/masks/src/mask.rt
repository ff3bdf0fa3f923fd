// A mask that 31 does not refuse.
ghost use Rattle.std.specs.Prelude.{◌≡◌, false, not, IfOk, is_ok, length};
ghost use Rattle.mask_cells.specs.MaskCalls.{wrong_length};

use crate::WrongLength;

// Whole rows of words, 1,024 rows at most.
#[derive(Clone, Copy)]
pub(crate) struct Mask<'a> {
    pub(crate) words: &'a [u64],
    ghost whole_rows: { wrong_length (length words.now) ≡ false },
}

impl<'a> Mask<'a> {
    pub(crate) fn new(words: &'a [u64]) -> Result<Mask<'a>, WrongLength>
        ensures test { is_ok result ≡ not (wrong_length (length words.now)) }
        ensures same { IfOk result (λ mask. mask.words.now ≡ words.now) }
    {
        if wrong_length(words.len()) {
            return Err(WrongLength);
        }
        Ok(Mask { words })
    }
}

// Refusal 31, of a number of words.
#[tactic(auto, using(crate::proofs::WrongLengths::not_whole, crate::proofs::WrongLengths::too_many_rows, crate::proofs::WrongLengths::right))]
fn wrong_length(length: usize) -> bool
    ensures { result ≡ wrong_length length }
{
    length % 16 != 0 || 1024 < length / 16
}
