// The refusals of the call on a whole list and of the calls of a walk, each with its number, and what a call of a walk hands back; and the totals that an answer tells.
#![tactic(auto)]

ghost use Rattle.std.specs.Prelude.{◌≡◌};
ghost use Rattle.outline_answers.specs.ListAnswer.{list_number, totals_of};
ghost use Rattle.outline_answers.specs.WalkAnswers.{begin_number, point_number, entry_number, end_number, abandon_number};

use outline::{Sheet, Totals, Walk, ZEROS};
use refusals::Refusal;

// The totals that an answer tells, zeros with every refusal.
pub fn totals_of<R: Drop>(answer: Result<Totals, R>) -> Totals
    ensures { result ≡ totals_of answer }
{
    answer.unwrap_or(ZEROS)
}

// Why the call on a whole list has no totals.
#[derive(Clone, Copy, Debug, PartialEq, Eq)]
pub enum OutlineRefusal {
    WrongLength,
    OutsideLimits,
}

impl Refusal for OutlineRefusal {
    ghost numbered = { list_number };

    fn number(self) -> u32 {
        match self {
            OutlineRefusal::WrongLength => 2,
            OutlineRefusal::OutsideLimits => 1,
        }
    }
}

// What a call of a walk that leaves the sheet alone hands back: whether it is accepted, and the walk, as it was with every refusal.
#[derive(Clone, Copy)]
pub struct WalkReply<R> {
    pub answer: Result<(), R>,
    pub walk: Walk,
}

#[derive(Clone, Copy, Debug, PartialEq, Eq)]
pub enum BeginRefusal {
    Impossible,
    AlreadyOpen,
}

impl Refusal for BeginRefusal {
    ghost numbered = { begin_number };

    fn number(self) -> u32 {
        match self {
            BeginRefusal::Impossible => 28,
            BeginRefusal::AlreadyOpen => 22,
        }
    }
}

#[derive(Clone, Copy, Debug, PartialEq, Eq)]
pub enum AbandonRefusal {
    Impossible,
    NotOpen,
}

impl Refusal for AbandonRefusal {
    ghost numbered = { abandon_number };

    fn number(self) -> u32 {
        match self {
            AbandonRefusal::Impossible => 28,
            AbandonRefusal::NotOpen => 21,
        }
    }
}

#[derive(Clone, Copy, Debug, PartialEq, Eq)]
pub enum PointRefusal {
    Impossible,
    NotOpen,
    OutsideLimits,
    Full,
}

impl Refusal for PointRefusal {
    ghost numbered = { point_number };

    fn number(self) -> u32 {
        match self {
            PointRefusal::Impossible => 28,
            PointRefusal::NotOpen => 21,
            PointRefusal::OutsideLimits => 1,
            PointRefusal::Full => 23,
        }
    }
}

// 28 and 21 refuse every call that needs an open walk.
impl From<AbandonRefusal> for PointRefusal {
    ghost from_gives = { λ walk point. point_number point ≡ abandon_number walk };

    fn from(refusal: AbandonRefusal) -> PointRefusal {
        match refusal {
            AbandonRefusal::Impossible => PointRefusal::Impossible,
            AbandonRefusal::NotOpen => PointRefusal::NotOpen,
        }
    }
}

// Why an entry of a receiver is not taken (document 02, CR 9).
#[derive(Clone, Copy, Debug, PartialEq, Eq)]
pub enum EntryRefusal {
    Impossible,
    NotOpen,
    NotFinite,
    BelowZero,
    OutsideLimits,
    Full,
}

impl Refusal for EntryRefusal {
    ghost numbered = { entry_number };

    fn number(self) -> u32 {
        match self {
            EntryRefusal::Impossible => 28,
            EntryRefusal::NotOpen => 21,
            EntryRefusal::NotFinite => 33,
            EntryRefusal::BelowZero => 34,
            EntryRefusal::OutsideLimits => 1,
            EntryRefusal::Full => 23,
        }
    }
}

impl From<AbandonRefusal> for EntryRefusal {
    ghost from_gives = { λ walk entry. entry_number entry ≡ abandon_number walk };

    fn from(refusal: AbandonRefusal) -> EntryRefusal {
        match refusal {
            AbandonRefusal::Impossible => EntryRefusal::Impossible,
            AbandonRefusal::NotOpen => EntryRefusal::NotOpen,
        }
    }
}

// The same refusal of a point, told of the fix that gave it.
impl From<PointRefusal> for EntryRefusal {
    ghost from_gives = { λ point entry. entry_number entry ≡ point_number point };

    fn from(refusal: PointRefusal) -> EntryRefusal {
        match refusal {
            PointRefusal::Impossible => EntryRefusal::Impossible,
            PointRefusal::NotOpen => EntryRefusal::NotOpen,
            PointRefusal::OutsideLimits => EntryRefusal::OutsideLimits,
            PointRefusal::Full => EntryRefusal::Full,
        }
    }
}

#[derive(Clone, Copy, Debug, PartialEq, Eq)]
pub enum EndRefusal {
    Impossible,
    NotOpen,
    TooFewPoints,
    ZeroArea,
    SheetFull,
    SheetExceeded,
}

impl Refusal for EndRefusal {
    ghost numbered = { end_number };

    fn number(self) -> u32 {
        match self {
            EndRefusal::Impossible => 28,
            EndRefusal::NotOpen => 21,
            EndRefusal::TooFewPoints => 24,
            EndRefusal::ZeroArea => 32,
            EndRefusal::SheetFull => 25,
            EndRefusal::SheetExceeded => 26,
        }
    }
}

impl From<AbandonRefusal> for EndRefusal {
    ghost from_gives = { λ walk end. end_number end ≡ abandon_number walk };

    fn from(refusal: AbandonRefusal) -> EndRefusal {
        match refusal {
            AbandonRefusal::Impossible => EndRefusal::Impossible,
            AbandonRefusal::NotOpen => EndRefusal::NotOpen,
        }
    }
}

// What an accepted end tells: the totals that it adds, and the walk's longest outage.
#[derive(Clone, Copy)]
pub struct Ended {
    pub totals: Totals,
    pub outage: f32,
}

#[derive(Clone, Copy)]
pub struct EndReply {
    pub answer: Result<Ended, EndRefusal>,
    pub walk: Walk,
    pub sheet: Sheet,
}
