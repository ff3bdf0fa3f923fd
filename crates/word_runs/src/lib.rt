// The bits of a word, document 02, CR 1: how many are set, and where the next set or clear bit stands.
#![tactic(auto)]

ghost use Rattle.std.specs.Prelude.{◌≡◌, ◌-◌};
ghost use Rattle.word_runs.specs.Bits.{ones_below, first_of, wanted, place};

// How many of the 64 bits of a word are set.
#[tactic(auto, using(crate::proofs::Ones::ones_are))]
pub fn filled(word: u64) -> u32
    ensures { result ≡ ones_below 64 word }
{
    word.count_ones()
}

// The place of the first set bit from the place `from` on.
#[tactic(auto, using(crate::proofs::Zeros::past_word, crate::proofs::Zeros::none_set, crate::proofs::Zeros::set_is, crate::proofs::Zeros::place_fits))]
pub fn first_set(word: u64, from: u32) -> Option<u32>
    ensures { result ≡ place (first_of 1 (64 - from) word from) }
{
    if u64::BITS <= from {
        return None;
    }
    match word >> from {
        0 => None,
        rest => Some(from + rest.trailing_zeros()),
    }
}

// The place of the first clear bit from the place `from` on.
#[tactic(auto, using(crate::proofs::Complement::clear_is))]
pub fn first_clear(word: u64, from: u32) -> Option<u32>
    ensures { result ≡ place (first_of 0 (64 - from) word from) }
{
    first_set(!word, from)
}

// The place of the first bit from the place `from` on that is set, or clear, as `set` says.
pub fn first_bit(word: u64, from: u32, set: bool) -> Option<u32>
    ensures { result ≡ place (first_of (wanted set) (64 - from) word from) }
{
    if set {
        first_set(word, from)
    } else {
        first_clear(word, from)
    }
}
