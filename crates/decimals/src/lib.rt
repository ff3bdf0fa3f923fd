// Numbers as decimal digits, written into a buffer that the caller lends; whether the buffer has room.
#![tactic(auto)]

mod digits;

ghost use Rattle.std.specs.Prelude.{◌≡◌, ◌+◌, ◌≤◌, ltb, pos, length};
ghost use Rattle.decimals.specs.Decimal.{decimal, signed, field};
ghost use Rattle.decimals.specs.Buffer.{field_room, if_room, Written};

use digits::up_to_twenty;

const TAB: u8 = b'\t';

// Room for a tab and a number of 64 bits.
const FIELD_ROOM: usize = 21;

// Whether a buffer of this size has less than this room from `at` on.
pub fn lacks_room(size: usize, at: usize, room: usize) -> bool
    ensures { result ≡ ltb size (at + room) }
{
    size < room || size - room < at
}

// The digits of n, after a minus where n is negative. Answers the place past them.
fn put_number(out: &mut [u8], at: usize, n: i64) -> usize
    requires { at + length (signed n) ≤ length out.old }
    ensures { Written out.old at (signed n) out.new result }
{
    let m = n.unsigned_abs();
    if n < 0 {
        out[at] = b'-';
        return up_to_twenty(out, at + 1, m);
    }
    up_to_twenty(out, at, m)
}

// A tab and a number. With less than 21 bytes of room nothing is written. Answers the place past what is written.
pub fn put_field(out: &mut [u8], at: usize, n: i64) -> usize
    ensures { Written out.old at (if_room field_room out.old at (field n)) out.new result }
{
    if lacks_room(out.len(), at, FIELD_ROOM) {
        return at;
    }
    out[at] = TAB;
    put_number(out, at + 1, n)
}

// The same for a number without a sign.
pub fn put_natural(out: &mut [u8], at: usize, n: u64) -> usize
    ensures { Written out.old at (if_room field_room out.old at (field (pos n))) out.new result }
{
    if lacks_room(out.len(), at, FIELD_ROOM) {
        return at;
    }
    out[at] = TAB;
    up_to_twenty(out, at + 1, n)
}

// The digits alone. The room is that of a field, one byte more than 20 digits take.
pub fn put_digits(out: &mut [u8], at: usize, n: u64) -> usize
    ensures { Written out.old at (if_room field_room out.old at (decimal n)) out.new result }
{
    if lacks_room(out.len(), at, FIELD_ROOM) {
        return at;
    }
    up_to_twenty(out, at, n)
}
