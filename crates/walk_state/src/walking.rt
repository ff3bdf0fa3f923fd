// A walk that is open and that calls can have made.
ghost use Rattle.std.specs.Prelude.{◌≡◌, true, false};
ghost use Rattle.outline.specs.WalkCalls.{impossible_walk};

use outline::Walk;

// Neither 28 nor 21 refuses it.
#[derive(Clone, Copy)]
pub struct OpenWalk {
    pub walk: Walk,
    pub ghost possible: { impossible_walk walk ≡ false },
    pub ghost marked: { walk.is_open ≡ true },
}
