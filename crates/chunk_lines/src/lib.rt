// The line at a place of a chunk, in the definition's order: its form is read, 10's limits are tested, then it is carried out. For every state, chunk and place.
#![tactic(auto)]

mod parts;

ghost use Rattle.std.specs.Prelude.{drop};
ghost use Rattle.text_program.specs.Stream.{line_step};
ghost use Rattle.chunk_lines.specs.Stepping.{Steps};

use outline::Sheet;
use parsing::line_form;
use parts::{end_reading, line_size, part_of_line, past_limit, unended, whole_line, with_gone};
use text_program::State;

// What a step leaves: how many bytes of the chunk it has taken, the place in the output past what it has written, and whether another may follow.
#[derive(Clone, Copy)]
pub struct Stepped {
    pub state: State,
    pub sheet: Sheet,
    pub used: usize,
    pub filled: usize,
    pub more: bool,
}

// From `at` on the chunk may have no byte: that is an empty line. What the line prints is written from `filled` on if there is room for the longest line; where
// there is none, the line is carried out all the same.
pub fn line_step(
    state: State,
    sheet: Sheet,
    chunk: &[u8],
    at: usize,
    last: bool,
    out: &mut [u8],
    filled: usize,
) -> Stepped
    ensures { Steps (line_step last state sheet (drop at chunk.now)) out.old filled out.new result }
{
    let form = line_form(chunk, at);
    let whole = line_size(form, chunk, at);
    let left = chunk.len().saturating_sub(at);
    let size = whole.min(left);
    if past_limit(state, size) {
        return end_reading(state, sheet, left, out, filled);
    }
    if unended(whole, left, last) {
        return part_of_line(state, sheet, size, filled);
    }
    whole_line(state, sheet, with_gone(state.gone, form), size, out, filled)
}
