// The streaming core of the text program: a chunk of the input at a time, for every state and every chunk.
#![tactic(auto)]

mod step;

ghost use Rattle.std.specs.Prelude.{◌≡◌, length};
ghost use Rattle.text_program.specs.Stream.{start as start_state, feed_call};
ghost use Rattle.stream.specs.Feeding.{Feeds};

use outline::Sheet;
use step::step;
use text_program::State;

// What a call leaves: how many bytes of the chunk it has taken, and how many it has written.
#[derive(Clone, Copy)]
pub struct Fed {
    pub state: State,
    pub sheet: Sheet,
    pub used: usize,
    pub filled: usize,
}

// The state before the first byte.
pub fn start() -> State
    ensures { result ≡ start_state }
{
    State {
        lines: 0,
        bytes: 0,
        gone: 0,
        ended: false,
        written: false,
        walk: walk_state::new_walk(),
    }
}

// Steps while they go on: a line at a time, while there is room for the longest line of the output.
pub fn feed(mut state: State, mut sheet: Sheet, chunk: &[u8], last: bool, out: &mut [u8]) -> Fed
    ensures { Feeds (feed_call last state sheet chunk.now (length out.old)) out.old out.new result }
{
    let mut used = 0;
    let mut filled = 0;
    loop {
        let stepped = step(state, sheet, chunk, used, last, out, filled);
        state = stepped.state;
        sheet = stepped.sheet;
        used += stepped.used;
        filled = stepped.filled;
        if !stepped.more {
            return Fed {
                state,
                sheet,
                used,
                filled,
            };
        }
    }
}
