// How a call's answer reaches a caller in another language: as a number, and as values at the front of a buffer that the caller lends.
#![tactic(auto)]

ghost use Rattle.std.specs.Prelude.{◌≡◌};
ghost use Rattle.replies.specs.Reply.{reply};

// The answer where the buffer is too short.
pub const SHORT_BUFFER: u32 = 100;

// Copies the values to the front of the buffer and answers the number, or answers that the buffer is too short.
#[tactic(auto, unfolding(crate::specs::Reply::reply))]
pub fn put_values(values: &[i64], number: u32, out: &mut [i64]) -> u32
    ensures { record { number = result; buffer = out.new } ≡ reply number values.now out.old }
{
    if out.len() < values.len() {
        return SHORT_BUFFER;
    }
    out[..values.len()].copy_from_slice(values);
    number
}
