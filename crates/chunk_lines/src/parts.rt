// The tests of a line, and what comes of each.
ghost use Rattle.std.specs.Prelude.{◌≡◌, not, ◌&&◌, ◌||◌, cond, ◌+◌, leb, ltb, drop, None};
ghost use Rattle.newlines.specs.LineLength.{line_length};
ghost use Rattle.parsing.specs.ReadForm.{form_at, reading};
ghost use Rattle.text_program.specs.Program.{carry_out};
ghost use Rattle.text_program.specs.Stream.{after_line, carried_step, part};
ghost use Rattle.chunk_lines.specs.Stepping.{Steps};
ghost use Rattle.chunk_lines.specs.private.Counting.{Counts, silent, ending_over};

use crate::Stepped;
use lines::carry_out;
use newlines::newline;
use outline::{Sheet, Walk};
use parsing::Line;
use printing::put_refusal;
use text_program::State;

// The bytes of the line at `at`, whose form is read, counting a newline also where the input ends without one.
pub(crate) fn line_size(form: Option<Line>, s: &[u8], at: usize) -> usize
    requires { reading form ≡ form_at s.now at }
    ensures { result ≡ line_length (drop at s.now) + 1 }
{
    match form {
        Some(line) => line.next - at,
        None => newline(s, at) - at + 1,
    }
}

// Line 1,000,001 or byte 33,000,001 is reached.
pub(crate) fn past_limit(state: State, size: usize) -> bool
    ensures { result ≡ (leb 1_000_000 state.lines || ltb 33_000_000 (state.bytes + state.gone + size)) }
{
    let taken = u64::from(state.bytes) + u64::from(state.gone);
    1_000_000 <= state.lines || 33_000_000 < taken.saturating_add(size as u64)
}

// 10: the line that is reached is refused, and the rest of the chunk, of `left` bytes, is passed over.
pub(crate) fn end_reading(
    state: State,
    sheet: Sheet,
    left: usize,
    out: &mut [u8],
    filled: usize,
) -> Stepped
    ensures { Steps (ending_over state sheet left) out.old filled out.new result }
{
    let filled = put_refusal(out, filled, u64::from(state.lines) + 1, 10);
    Stepped {
        state: State {
            ended: true,
            written: false,
            ..state
        },
        sheet,
        used: left,
        filled,
        more: true,
    }
}

// The chunk ends before the line does, and is not the last.
pub(crate) fn unended(whole: usize, left: usize, last: bool) -> bool
    ensures { result ≡ (ltb left whole && not last) }
{
    left < whole && !last
}

// Part of a line, of which `size` bytes are here: left where it may yet have a form, else only its size is kept.
pub(crate) fn part_of_line(state: State, sheet: Sheet, size: usize, filled: usize) -> Stepped
    requires { Counts state size }
    ensures { result ≡ silent (part state sheet size) filled }
{
    let gone = state.gone + size as u32;
    if gone <= 32 {
        return Stepped {
            state,
            sheet,
            used: 0,
            filled,
            more: false,
        };
    }
    Stepped {
        state: State {
            gone,
            ended: false,
            written: false,
            ..state
        },
        sheet,
        used: size,
        filled,
        more: false,
    }
}

// A line of which bytes are gone has none of the forms, whatever is left of it.
pub(crate) fn with_gone(gone: u32, form: Option<Line>) -> Option<Line>
    ensures { result ≡ cond (ltb 0 gone) None form }
{
    if 0 < gone { None } else { form }
}

fn after_line(state: State, walk: Walk, size: usize) -> State
    requires { Counts state size }
    ensures { result ≡ after_line state walk size }
{
    State {
        lines: state.lines + 1,
        bytes: state.bytes + state.gone + size as u32,
        gone: 0,
        ended: false,
        written: false,
        walk,
    }
}

// A whole line, of `size` bytes in the chunk, is carried out and counted.
pub(crate) fn whole_line(
    state: State,
    sheet: Sheet,
    form: Option<Line>,
    size: usize,
    out: &mut [u8],
    filled: usize,
) -> Stepped
    requires { Counts state size }
    ensures { Steps (carried_step state (carry_out (state.lines + 1) (reading form).form state.walk sheet) size) out.old filled out.new result }
{
    let carried = carry_out(
        form,
        state.walk,
        sheet,
        u64::from(state.lines) + 1,
        out,
        filled,
    );
    Stepped {
        state: after_line(state, carried.walk, size),
        sheet: carried.sheet,
        used: size,
        filled: carried.filled,
        more: true,
    }
}
