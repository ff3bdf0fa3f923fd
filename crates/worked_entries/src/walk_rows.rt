// Walks told call by call, each call a row. Each is given the walk and the sheet that the one before left.
ghost use Rattle.std.specs.Prelude.{◌≡◌};
ghost use Rattle.worked_entries.specs.BitFloats.{fix_of};
ghost use Rattle.worked_entries.specs.Calls.{told_reading, carried_out};
ghost use Rattle.worked_entries.specs.Draws.{after_call};

use crate::calls::{Call, Held, Told, carry_out};
use crate::draws::{Drawn, FIRST_STATE, drawn_call};
use crate::floats::{INFINITY, TOO_FAR, bits_of, fix_of};
use crate::full_walk::full_walk;
use crate::show::{end_row, show, show_label, show_word};
use receiver::Entry;
use refusals::Answer;
use walk_state::{new_sheet, new_walk};

// The call; its number, the walk's count and longest outage afterwards; with an end also the six totals and the longest outage that it answers.
fn show_told(rt: &impl Print, call: Call, told: Told) {
    let walk = told.left.walk;
    show_word(rt, call);
    show(rt, told.answer.number());
    show(rt, walk.count);
    show(rt, bits_of(walk.outage));
    if let Call::End = call {
        let ended = told.ended();
        let t = ended.totals;
        for total in &[t.a2, t.x6, t.y6, t.xx12, t.xy24, t.yy12] {
            show(rt, *total);
        }
        show(rt, bits_of(ended.outage));
    }
    end_row(rt);
}

// The call that is drawn next, with its step, from 1 on.
#[tactic(auto, unfolding(crate::specs::Draws::after_call))]
fn call_row(rt: &impl Print, step: u32, given: Drawn<Held>) -> Drawn<Held>
    ensures { result ≡ after_call given }
{
    let drawn = drawn_call(given.state);
    let told = carry_out(drawn.value, given.value);
    show_label(rt, "call");
    show(rt, step);
    show_told(rt, drawn.value, told);
    Drawn {
        value: told.left,
        state: drawn.state,
    }
}

// 400 calls, first on a closed walk and a new sheet.
pub(crate) fn call_rows(rt: &impl Print) {
    let held = Held {
        walk: new_walk(),
        sheet: new_sheet(),
    };
    let mut given = Drawn {
        value: held,
        state: FIRST_STATE,
    };
    for step in 1..401 {
        given = call_row(rt, step, given);
    }
}

// One call on a full walk.
fn full_row(rt: &impl Print, call: Call, held: Held) -> Told
    ensures { told_reading result ≡ carried_out call held }
{
    let told = carry_out(call, held);
    show_label(rt, "full");
    show_told(rt, call, told);
    told
}

// The same of a fix, with the bits of its east and of its north.
fn full_fix_row(rt: &impl Print, east: u32, north: u32, held: Held) -> Told
    ensures { told_reading result ≡ carried_out (Call.Entry (Entry.Fix (fix_of east north))) held }
{
    full_row(rt, Call::Entry(Entry::Fix(fix_of(east, north))), held)
}

// A fix at the peg, one past the limits, one at no place; then an outage and the end.
pub(crate) fn full_rows(rt: &impl Print) {
    let held = Held {
        walk: full_walk(),
        sheet: new_sheet(),
    };
    let peg = full_fix_row(rt, 0, 0, held);
    let far = full_fix_row(rt, TOO_FAR, 0, peg.left);
    let nowhere = full_fix_row(rt, 0, INFINITY, far.left);
    let longer = full_row(rt, Call::Entry(Entry::Outage(5.0)), nowhere.left);
    full_row(rt, Call::End, longer.left);
}
