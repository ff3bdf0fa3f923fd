// The state of a walk: how a walk is made, what a new sheet is, the calls that only open a walk or give it up, by value, and the tests of refusal 28. None adds an edge.
#![tactic(auto)]

mod handed_in;
mod walking;

ghost use Rattle.std.specs.Prelude.{◌≡◌};
ghost use Rattle.outline.specs.WalkCalls.{open_walk, closed, new_sheet, begin_call, abandon_call};
ghost use Rattle.outline_answers.specs.WalkAnswers.{begin_reading, abandon_reading};
ghost use Rattle.walk_state.specs.Replies.{asked, as_walk, replied};

pub use handed_in::{impossible_sheet, impossible_walk};
use outline::{Kind, ORIGIN, Position, Sheet, Totals, Walk, ZEROS};
use outline_answers::{AbandonRefusal, BeginRefusal, WalkReply};
pub use walking::OpenWalk;

const CLOSED: Walk = Walk {
    is_open: false,
    kind: Kind::Island,
    count: 0,
    first: ORIGIN,
    last: ORIGIN,
    totals: ZEROS,
    outage: 0.0,
};

// Every open walk is made here.
pub fn open_walk(
    kind: Kind,
    count: u32,
    first: Position,
    last: Position,
    totals: Totals,
    outage: f32,
) -> Walk
    ensures { result ≡ open_walk kind count first last totals outage }
{
    Walk {
        is_open: true,
        kind,
        count,
        first,
        last,
        totals,
        outage,
    }
}

// A walk that was never opened.
pub fn new_walk() -> Walk
    ensures { result ≡ closed }
{
    CLOSED
}

pub fn new_sheet() -> Sheet
    ensures { result ≡ new_sheet }
{
    Sheet {
        count: 0,
        totals: ZEROS,
    }
}

// The walk to go on with.
pub fn opened(w: Walk) -> Result<OpenWalk, AbandonRefusal>
    ensures { as_walk result ≡ asked w }
{
    if impossible_walk(w) {
        return Err(AbandonRefusal::Impossible);
    }
    if !w.is_open {
        return Err(AbandonRefusal::NotOpen);
    }
    Ok(OpenWalk { walk: w })
}

// What a call hands back: the walk that it leaves, or with a refusal the one handed in.
pub fn reply<R: Drop>(held: Walk, left: Result<Walk, R>) -> WalkReply<R>
    ensures { result ≡ replied held left }
{
    match left {
        Ok(walk) => WalkReply {
            answer: Ok(()),
            walk,
        },
        Err(refusal) => WalkReply {
            answer: Err(refusal),
            walk: held,
        },
    }
}

#[tactic(auto, unfolding(outline::specs::WalkCalls::begin_call))]
fn begun(w: Walk, kind: Kind) -> Result<Walk, BeginRefusal>
    ensures { begin_reading (replied w result) ≡ begin_call w kind }
{
    if impossible_walk(w) {
        return Err(BeginRefusal::Impossible);
    }
    if w.is_open {
        return Err(BeginRefusal::AlreadyOpen);
    }
    Ok(open_walk(kind, 0, ORIGIN, ORIGIN, ZEROS, 0.0))
}

pub fn begin(w: Walk, kind: Kind) -> WalkReply<BeginRefusal>
    ensures { begin_reading result ≡ begin_call w kind }
{
    reply(w, begun(w, kind))
}

#[tactic(auto, unfolding(outline::specs::WalkCalls::abandon_call))]
pub fn abandon(w: Walk) -> WalkReply<AbandonRefusal>
    ensures { abandon_reading result ≡ abandon_call w }
{
    reply(w, opened(w).map(|_| new_walk()))
}
