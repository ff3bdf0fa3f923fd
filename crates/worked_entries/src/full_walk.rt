// A walk of 1,024 points, by fixes.
ghost use Rattle.std.specs.Prelude.{◌≡◌};
ghost use Rattle.worked_entries.specs.FullWalk.{after_fix, after_round, full_walk};

use crate::floats::fix_of;
use outline::{Kind, Walk};
use receiver::Entry;
use walk_state::{begin, new_walk};

// The bits of 2,000 and of -2,000.
const HIGH: u32 = 0x44FA_0000;

const LOW: u32 = 0xC4FA_0000;

fn walk_to(w: Walk, east: u32, north: u32) -> Walk
    ensures { result ≡ after_fix w east north }
{
    entries::entry(w, Entry::Fix(fix_of(east, north))).walk
}

// One round of the square with corners ±2,000, anticlockwise.
fn walk_round(w: Walk) -> Walk
    ensures { result ≡ after_round w }
{
    let one = walk_to(w, HIGH, LOW);
    let two = walk_to(one, HIGH, HIGH);
    let three = walk_to(two, LOW, HIGH);
    walk_to(three, LOW, LOW)
}

// An island: 256 rounds.
pub(crate) fn full_walk() -> Walk
    ensures { result ≡ full_walk }
{
    let mut walk = begin(new_walk(), Kind::Island).walk;
    for rounds in 0..256u32 {
        walk = walk_round(walk);
    }
    walk
}
