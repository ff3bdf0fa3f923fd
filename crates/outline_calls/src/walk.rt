// The calls of a walk that add an edge, by value: each is handed the walk, and end the sheet too, and hands back what it leaves.
ghost use Rattle.std.specs.Prelude.{◌≡◌, false, ◌<◌, ◌≤◌};
ghost use Rattle.outline.specs.EdgeSums.{negated, exceed};
ghost use Rattle.outline.specs.ListCall.{outside};
ghost use Rattle.outline.specs.MapCall.{total_limits};
ghost use Rattle.outline.specs.WalkCalls.{extended, closed_totals, has_sign, turned, point_call, end_call};
ghost use Rattle.outline_answers.specs.WalkAnswers.{point_reading, end_reading};
ghost use Rattle.walk_state.specs.Replies.{replied};
ghost use Rattle.outline_calls.specs.private.Ended.{end_replied};

use crate::{add, add_edge};
use limits::{outside_limits, position_outside};
use outline::{Kind, Position, Sheet, Totals, Walk};
use outline_answers::{EndRefusal, EndReply, Ended, PointRefusal, WalkReply};
use walk_state::{OpenWalk, impossible_sheet, new_walk, open_walk, opened, reply};

// The walk with one point more. Its kind and its longest outage stay.
#[tactic(auto, using(crate::proofs::WalkTotals::open_totals_within, crate::proofs::WalkTotals::open_last_inside), unfolding(outline::specs::WalkCalls::extended))]
fn extended(walking: OpenWalk, p: Position) -> Walk
    requires count_bound { walking.walk.count < 1024 }
    requires p_value { outside p ≡ false }
    ensures { result ≡ extended walking.walk p }
{
    let w = walking.walk;
    if w.count == 0 {
        return open_walk(w.kind, 1, p, p, w.totals, w.outage);
    }
    let sum = add_edge(w.totals, w.last, p);
    open_walk(w.kind, w.count + 1, w.first, p, sum, w.outage)
}

// The walk that a point leaves.
#[tactic(auto, unfolding(outline::specs::WalkCalls::point_call))]
pub fn with_point(w: Walk, p: Position) -> Result<Walk, PointRefusal>
    ensures { point_reading (replied w result) ≡ point_call w p }
{
    let walking = opened(w)?;
    if position_outside(p) {
        return Err(PointRefusal::OutsideLimits);
    }
    if 1024 <= w.count {
        return Err(PointRefusal::Full);
    }
    Ok(extended(walking, p))
}

pub fn point(w: Walk, x: i32, y: i32) -> WalkReply<PointRefusal>
    ensures { point_reading result ≡ point_call w (record { x = x; y = y }) }
{
    reply(w, with_point(w, Position { x, y }))
}

// The walk's totals with the closing edge.
#[tactic(auto, using(crate::proofs::WalkTotals::open_totals_within, crate::proofs::WalkTotals::open_last_inside, crate::proofs::WalkTotals::open_first_inside))]
fn closed_totals(walking: OpenWalk) -> Totals
    requires { 3 ≤ walking.walk.count }
    ensures { result ≡ closed_totals walking.walk }
{
    let w = walking.walk;
    add_edge(w.totals, w.last, w.first)
}

// Whether A2 has the sign that the kind has.
#[tactic(auto, unfolding(outline::specs::WalkCalls::has_sign))]
fn has_sign(kind: Kind, a2: i64) -> bool
    ensures { result ≡ has_sign kind a2 }
{
    match kind {
        Kind::Island => 0 < a2,
        Kind::Hole => a2 < 0,
    }
}

// All six signs turned.
fn negate(t: Totals) -> Totals
    requires { exceed total_limits t ≡ false }
    ensures { result ≡ negated t }
{
    Totals {
        a2: -t.a2,
        x6: -t.x6,
        y6: -t.y6,
        xx12: -t.xx12,
        xy24: -t.xy24,
        yy12: -t.yy12,
    }
}

// The totals of a ring as added.
#[tactic(auto, unfolding(outline::specs::WalkCalls::turned))]
fn turn(kind: Kind, ring: Totals) -> Totals
    requires { exceed total_limits ring ≡ false }
    ensures { result ≡ turned kind ring }
{
    if has_sign(kind, ring.a2) {
        ring
    } else {
        negate(ring)
    }
}

// What an accepted end tells, and the sheet that it leaves.
#[tactic(auto, unfolding(outline::specs::WalkCalls::end_call))]
fn ended(w: Walk, s: Sheet) -> Result<(Ended, Sheet), EndRefusal>
    ensures { end_reading (end_replied w s result) ≡ end_call w s }
{
    if impossible_sheet(s) {
        return Err(EndRefusal::Impossible);
    }
    let walking = opened(w)?;
    if w.count < 3 {
        return Err(EndRefusal::TooFewPoints);
    }
    let ring = closed_totals(walking);
    if ring.a2 == 0 {
        return Err(EndRefusal::ZeroArea);
    }
    if 64 <= s.count {
        return Err(EndRefusal::SheetFull);
    }
    let added = turn(w.kind, ring);
    let sums = add(s.totals, added);
    if outside_limits(sums) {
        return Err(EndRefusal::SheetExceeded);
    }
    let told = Ended {
        totals: added,
        outage: w.outage,
    };
    let sheet = Sheet {
        count: s.count + 1,
        totals: sums,
    };
    Ok((told, sheet))
}

pub fn end(w: Walk, s: Sheet) -> EndReply
    ensures { end_reading result ≡ end_call w s }
{
    match ended(w, s) {
        Ok((told, sheet)) => EndReply {
            answer: Ok(told),
            walk: new_walk(),
            sheet,
        },
        Err(refusal) => EndReply {
            answer: Err(refusal),
            walk: w,
            sheet: s,
        },
    }
}
