// Calls that are drawn, as second/worked_entries.py draws them. A state is a number below 2,147,483,647, and each draw is the next state.
ghost use Rattle.std.specs.Prelude.{◌≡◌};
ghost use Rattle.worked_entries.specs.Draws.{next_draw, drawn_size, drawn_float, drawn_fix, drawn_outage, drawn_begin, drawn_call};

use crate::calls::Call;
use crate::floats::{INFINITY, SIGN, float_of};
use outline::Kind;
use receiver::{Entry, Fix};

// The state before the first draw.
pub(crate) const FIRST_STATE: u32 = 20261;

// The bits of 512.
const MODEST: u32 = 0x4400_0000;

// So many patterns are below 2,048 from 512 on.
const MODEST_SPAN: u32 = 0x100_0000;

// A value, and the state that its draws leave.
#[derive(Clone, Copy)]
pub(crate) struct Drawn<T> {
    pub value: T,
    pub state: u32,
}

fn next_draw(state: u32) -> u32
    ensures { result ≡ next_draw state }
{
    (u64::from(state) * 48271 % 2147483647) as u32
}

// The bits of a float without its sign, of two draws.
#[tactic(auto, unfolding(crate::specs::Draws::drawn_size))]
fn drawn_size(kind: u32, draw: u32) -> u32
    ensures { result ≡ drawn_size kind draw }
{
    match kind % 8 {
        0 => INFINITY,
        1 => draw.min(INFINITY),
        2 => 0,
        _ => MODEST + draw % MODEST_SPAN,
    }
}

// Three draws: kind, size and sign.
#[tactic(auto, using(crate::proofs::Sizes::size_bound), unfolding(crate::specs::Draws::drawn_float))]
fn drawn_float(state: u32) -> Drawn<f32>
    ensures { result ≡ drawn_float state }
{
    let kind = next_draw(state);
    let draw = next_draw(kind);
    let sign = next_draw(draw);
    let bits = drawn_size(kind, draw) + sign % 2 * SIGN;
    Drawn {
        value: float_of(bits),
        state: sign,
    }
}

#[tactic(auto, unfolding(crate::specs::Draws::drawn_fix))]
fn drawn_fix(state: u32) -> Drawn<Call>
    ensures { result ≡ drawn_fix state }
{
    let east = drawn_float(state);
    let north = drawn_float(east.state);
    let fix = Fix {
        east: east.value,
        north: north.value,
    };
    Drawn {
        value: Call::Entry(Entry::Fix(fix)),
        state: north.state,
    }
}

#[tactic(auto, unfolding(crate::specs::Draws::drawn_outage))]
fn drawn_outage(state: u32) -> Drawn<Call>
    ensures { result ≡ drawn_outage state }
{
    let seconds = drawn_float(state);
    Drawn {
        value: Call::Entry(Entry::Outage(seconds.value)),
        state: seconds.state,
    }
}

#[tactic(auto, unfolding(crate::specs::Draws::drawn_begin))]
fn drawn_begin(state: u32) -> Drawn<Call>
    ensures { result ≡ drawn_begin state }
{
    let draw = next_draw(state);
    let kind = if draw % 2 == 1 {
        Kind::Hole
    } else {
        Kind::Island
    };
    Drawn {
        value: Call::Begin(kind),
        state: draw,
    }
}

// The next call.
#[tactic(auto, unfolding(crate::specs::Draws::drawn_call))]
pub(crate) fn drawn_call(state: u32) -> Drawn<Call>
    ensures { result ≡ drawn_call state }
{
    let draw = next_draw(state);
    match draw % 16 {
        0..=8 => drawn_fix(draw),
        9..=13 => drawn_outage(draw),
        14 => drawn_begin(draw),
        _ => Drawn {
            value: Call::End,
            state: draw,
        },
    }
}
