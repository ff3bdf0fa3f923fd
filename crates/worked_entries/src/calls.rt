// The calls of a walk that the rows tell, each carried out.
ghost use Rattle.std.specs.Prelude.{◌≡◌};
ghost use Rattle.refusals.specs.Numbers.{number_of};
ghost use Rattle.worked_entries.specs.Calls.{call_number, told_reading, beside_sheet, carried_out};

use outline::{Kind, Sheet, Walk, ZEROS};
use outline_answers::{BeginRefusal, EndRefusal, Ended, EntryRefusal};
use receiver::Entry;
use refusals::Refusal;
use std::fmt;

#[derive(Clone, Copy)]
pub(crate) enum Call {
    Entry(Entry),
    Begin(Kind),
    End,
}

impl fmt::Display for Call {
    fn fmt<W: fmt::Write>(&self, f: &mut fmt::Formatter<W>) -> fmt::Result {
        match self {
            Call::Entry(Entry::Fix(_)) => f.write_str("fix"),
            Call::Entry(Entry::Outage(_)) => f.write_str("outage"),
            Call::Begin(_) => f.write_str("begin"),
            Call::End => f.write_str("end"),
        }
    }
}

#[derive(Clone, Copy)]
pub(crate) enum CallRefusal {
    Entry(EntryRefusal),
    Begin(BeginRefusal),
    End(EndRefusal),
}

impl Refusal for CallRefusal {
    ghost numbered = { call_number };

    fn number(self) -> u32 {
        match self {
            CallRefusal::Entry(refusal) => refusal.number(),
            CallRefusal::Begin(refusal) => refusal.number(),
            CallRefusal::End(refusal) => refusal.number(),
        }
    }
}

// What an end that is refused tells, and every other call.
const NOT_ENDED: Ended = Ended {
    totals: ZEROS,
    outage: 0.0,
};

// The walk and the sheet that a call is given, and those that it leaves.
#[derive(Clone, Copy)]
pub(crate) struct Held {
    pub walk: Walk,
    pub sheet: Sheet,
}

// What a call answers and leaves.
#[derive(Clone, Copy)]
pub(crate) struct Told {
    pub answer: Result<Ended, CallRefusal>,
    pub left: Held,
}

impl Told {
    // What an end answers.
    pub(crate) fn ended(self) -> Ended
        ensures { result ≡ record { totals = (told_reading self).totals; outage = (told_reading self).outage } }
    {
        self.answer.unwrap_or(NOT_ENDED)
    }
}

// A call that answers no totals and leaves the sheet as it is.
fn beside_sheet(answer: Result<(), CallRefusal>, walk: Walk, sheet: Sheet) -> Told
    ensures { told_reading result ≡ beside_sheet (record { number = number_of call_number answer; walk = walk }) sheet }
{
    Told {
        answer: answer.map(|_| NOT_ENDED),
        left: Held { walk, sheet },
    }
}

pub(crate) fn carry_out(call: Call, held: Held) -> Told
    ensures { told_reading result ≡ carried_out call held }
{
    match call {
        Call::Entry(e) => {
            let reply = entries::entry(held.walk, e);
            let answer = reply.answer.map_err(CallRefusal::Entry);
            beside_sheet(answer, reply.walk, held.sheet)
        }
        Call::Begin(kind) => {
            let reply = walk_state::begin(held.walk, kind);
            let answer = reply.answer.map_err(CallRefusal::Begin);
            beside_sheet(answer, reply.walk, held.sheet)
        }
        Call::End => {
            let reply = outline_calls::end(held.walk, held.sheet);
            Told {
                answer: reply.answer.map_err(CallRefusal::End),
                left: Held {
                    walk: reply.walk,
                    sheet: reply.sheet,
                },
            }
        }
    }
}
