// How a call answers: its value, or the refusal that names why it has none. Each refusal has a number in document 01 or 02.
#![tactic(auto)]

ghost use Rattle.std.specs.Prelude.{◌≡◌, ℕ};
ghost use Rattle.refusals.specs.Numbers.{number_of};

// Why a call has no value.
pub trait Refusal {
    ghost numbered: { Self → ℕ };

    // The number of the refusal in documents 01 and 02.
    fn number(self) -> u32
        ensures { result ≡ numbered self };
}

// What a call answers.
pub trait Answer {
    ghost read: { Self → ℕ };

    // The number of the refusal, 0 where there is none.
    fn number(self) -> u32
        ensures { result ≡ read self };
}

impl<T: Drop, R: Refusal> Answer for Result<T, R> {
    ghost read = { λ answer. number_of R.numbered answer };

    fn number(self) -> u32 {
        match self {
            Ok(_) => 0,
            Err(refusal) => refusal.number(),
        }
    }
}
