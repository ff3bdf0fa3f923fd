// One step: nothing, the S line, or the line at a place of the chunk.
ghost use Rattle.std.specs.Prelude.{◌≡◌, false, not, ◌&&◌, ◌||◌, ◌-◌, ◌≤◌, eqb, length, drop};
ghost use Rattle.text_program.specs.Stream.{closing};
ghost use Rattle.chunk_lines.specs.Stepping.{Steps};
ghost use Rattle.stream.specs.private.RoomForLine.{step_with_room};

use chunk_lines::{Stepped, line_step};
use outline::Sheet;
use printing::{LINE_ROOM, put_sheet};
use text_program::State;

// Nothing more can be done with this chunk and this room.
fn halt(state: State, sheet: Sheet, filled: usize) -> Stepped
    ensures { result ≡ record { state = state; sheet = sheet; used = 0; filled = filled; more = false } }
{
    Stepped {
        state,
        sheet,
        used: 0,
        filled,
        more: false,
    }
}

// The S line. Called at one place, so that the state of the loop over the lines can stay in registers.
fn close(state: State, sheet: Sheet, out: &mut [u8], filled: usize) -> Stepped
    ensures { Steps (closing state sheet) out.old filled out.new result }
{
    let filled = put_sheet(out, filled, sheet);
    Stepped {
        state: State {
            ended: true,
            written: true,
            ..state
        },
        sheet,
        used: 0,
        filled,
        more: false,
    }
}

// The S line is due: reading has ended, or the input has, and nothing of it is left.
fn at_end(state: State, last: bool, left: usize) -> bool
    ensures { result ≡ (state.ended || (last && (eqb left 0 && eqb state.gone 0))) }
{
    state.ended || last && left == 0 && state.gone == 0
}

// More of the input must be read.
fn waits(last: bool, left: usize) -> bool
    ensures { result ≡ (not last && eqb left 0) }
{
    !last && left == 0
}

pub(crate) fn step(
    state: State,
    sheet: Sheet,
    chunk: &[u8],
    at: usize,
    last: bool,
    out: &mut [u8],
    filled: usize,
) -> Stepped
    requires at_in_bounds { at ≤ length chunk.now }
    requires filled_in_bounds { filled ≤ length out.old }
    ensures { Steps (step_with_room last state sheet (drop at chunk.now) (length out.old - filled)) out.old filled out.new result }
{
    if state.written {
        return halt(state, sheet, filled);
    }
    if out.len() - filled < LINE_ROOM {
        return halt(state, sheet, filled);
    }
    let left = chunk.len() - at;
    if at_end(state, last, left) {
        return close(state, sheet, out, filled);
    }
    if waits(last, left) {
        return halt(state, sheet, filled);
    }
    line_step(state, sheet, chunk, at, last, out, filled)
}
