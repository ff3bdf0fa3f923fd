// One line of the text program, carried out: what it does with the walk and the sheet, and what is printed of it.
#![tactic(auto)]

ghost use Rattle.std.specs.Prelude.{ℕ, ◌<◌};
ghost use Rattle.outline.specs.WalkCalls.{end_call};
ghost use Rattle.outline_answers.specs.WalkAnswers.{walk_reading};
ghost use Rattle.parsing.specs.ReadForm.{reading};
ghost use Rattle.text_program.specs.Program.{carried_walk, carried_end, carry_out};
ghost use Rattle.lines.specs.LineOutcome.{Finished};

use outline::{Sheet, Walk};
use outline_answers::WalkReply;
use parsing::{Line, LineForm};
use printing::{put_outline, put_refusal};
use refusals::Refusal;

// What a line leaves, and the place past what it prints.
#[derive(Clone, Copy)]
pub struct LineReply {
    pub walk: Walk,
    pub sheet: Sheet,
    pub filled: usize,
}

// A line has none of the forms.
#[derive(Clone, Copy, Debug, PartialEq, Eq)]
struct NoForm;

impl Refusal for NoForm {
    ghost numbered = { λ _. 9 };

    fn number(self) -> u32 {
        9
    }
}

// What a line that is no end prints: nothing where it is accepted, else R with the line's number and the refusal's.
fn tell<R: Refusal>(
    reply: WalkReply<R>,
    sheet: Sheet,
    line: u64,
    out: &mut [u8],
    at: usize,
) -> LineReply
    requires { (refusal : _) → 0 < R.numbered refusal }
    ensures { Finished (carried_walk line (walk_reading R.numbered reply) sheet) out.old at out.new result }
{
    let walk = reply.walk;
    match reply.answer {
        Ok(()) => LineReply {
            walk,
            sheet,
            filled: at,
        },
        Err(refusal) => LineReply {
            walk,
            sheet,
            filled: put_refusal(out, at, line, u64::from(refusal.number())),
        },
    }
}

// An end prints the outline's line, or the refusal. The points are those of the walk before the call, which closes it.
fn end_walk(w: Walk, s: Sheet, line: u64, out: &mut [u8], at: usize) -> LineReply
    ensures { Finished (carried_end line w.count (end_call w s)) out.old at out.new result }
{
    let reply = outline_calls::end(w, s);
    let filled = match reply.answer {
        Ok(ended) => put_outline(out, at, reply.sheet.count, w.count, ended.totals),
        Err(refused) => put_refusal(out, at, line, u64::from(refused.number())),
    };
    LineReply {
        walk: reply.walk,
        sheet: reply.sheet,
        filled,
    }
}

// The line number `line`, by its form. What it prints is written from `at` on if there is room for the longest line; where there is none, it is
// carried out all the same.
pub fn carry_out(
    form: Option<Line>,
    walk: Walk,
    sheet: Sheet,
    line: u64,
    out: &mut [u8],
    at: usize,
) -> LineReply
    ensures { Finished (carry_out line (reading form).form walk sheet) out.old at out.new result }
{
    let Some(found) = form else {
        let refused = WalkReply {
            answer: Err(NoForm),
            walk,
        };
        return tell(refused, sheet, line, out, at);
    };
    match found.form {
        LineForm::Point(x, y) => tell(outline_calls::point(walk, x, y), sheet, line, out, at),
        LineForm::Begin(kind) => tell(walk_state::begin(walk, kind), sheet, line, out, at),
        LineForm::Abandon => tell(walk_state::abandon(walk), sheet, line, out, at),
        LineForm::End => end_walk(walk, sheet, line, out, at),
    }
}
