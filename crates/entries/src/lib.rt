// An entry of a receiver given to a walk (document 02, CR 9), by value: a fix is a point call with the rounded point, an outage may lengthen the walk's longest.
#![tactic(auto)]

ghost use Rattle.std.specs.Prelude.{◌≡◌};
ghost use Rattle.outline.specs.EntryCalls.{longer, fix_call, outage_call, entry_call};
ghost use Rattle.outline_answers.specs.WalkAnswers.{entry_reading};
ghost use Rattle.walk_state.specs.Replies.{replied};

use fixes::fix_point;
use outline::Walk;
use outline_answers::{EntryRefusal, WalkReply};
use outline_calls::with_point;
use receiver::{Entry, Fix, below_zero, not_finite};
use walk_state::{OpenWalk, open_walk, opened, reply};

// The walk that a fix leaves: that of its point.
#[tactic(auto, using(crate::proofs::FixCases::fix_refused, crate::proofs::FixCases::fix_accepted))]
fn with_fix(walking: OpenWalk, f: Fix) -> Result<Walk, EntryRefusal>
    ensures { entry_reading (replied walking.walk result) ≡ fix_call walking.walk f }
{
    let p = fix_point(f)?;
    Ok(with_point(walking.walk, p)?)
}

// The longest outage, after one more of so many seconds.
#[tactic(auto, unfolding(outline::specs::EntryCalls::longer))]
fn longer_outage(kept: f32, seconds: f32) -> f32
    ensures { result ≡ longer kept seconds }
{
    if kept < seconds { seconds } else { kept }
}

// The walk that an outage leaves: all but the longest outage stays.
#[tactic(auto, unfolding(outline::specs::EntryCalls::outage_call))]
fn with_outage(walking: OpenWalk, seconds: f32) -> Result<Walk, EntryRefusal>
    ensures { entry_reading (replied walking.walk result) ≡ outage_call walking.walk seconds }
{
    if not_finite(seconds) {
        return Err(EntryRefusal::NotFinite);
    }
    if below_zero(seconds) {
        return Err(EntryRefusal::BelowZero);
    }
    let w = walking.walk;
    let longest = longer_outage(w.outage, seconds);
    Ok(open_walk(w.kind, w.count, w.first, w.last, w.totals, longest))
}

// The walk that an entry leaves.
#[tactic(auto, unfolding(outline::specs::EntryCalls::entry_call, outline::specs::EntryCalls::fix_call, outline::specs::EntryCalls::outage_call))]
fn with_entry(w: Walk, e: Entry) -> Result<Walk, EntryRefusal>
    ensures { entry_reading (replied w result) ≡ entry_call w e }
{
    let walking = opened(w)?;
    match e {
        Entry::Fix(f) => with_fix(walking, f),
        Entry::Outage(seconds) => with_outage(walking, seconds),
    }
}

pub fn entry(w: Walk, e: Entry) -> WalkReply<EntryRefusal>
    ensures { entry_reading result ≡ entry_call w e }
{
    reply(w, with_entry(w, e))
}
