// The plots of document 01's "Plots worked by hand" that carry no ✱, each through the proved functions.
ghost use Rattle.std.specs.Prelude.{◌≡◌, [], ◌∷◌, ◌*◌, ◌≤◌, take};
ghost use Rattle.outline.specs.ListCall.{list_call, points};
ghost use Rattle.outline.specs.MapCall.{map_call};
ghost use Rattle.outline.specs.WalkCalls.{closed, new_sheet, point_call, end_call};
ghost use Rattle.outline_answers.specs.ListAnswer.{reading as list_reading};
ghost use Rattle.outline_answers.specs.WalkAnswers.{point_reading, end_reading};
ghost use Rattle.affine.specs.Answer.{reading as map_reading};
ghost use Rattle.cells.specs.RegionCall.{region_call, reading};
ghost use Rattle.worked_plots.specs.Plots.{round_square, doubling, after_points, square, walked_square, end_after, triangle, run_of, handed_in};

use affine::MapRefusal;
use cells::{RegionRefusal, Run};
use outline::{AffineMap, Kind, ORIGIN, Position, Totals, Walk, ZEROS};
use outline_answers::{EndReply, OutlineRefusal, PointRefusal, WalkReply, totals_of};

// The corners of a square, x and y in turn, anticlockwise.
const SQUARE: [i32; 8] = [2000, -2000, 2000, 2000, -2000, 2000, -2000, -2000];

pub(crate) const DOUBLING: AffineMap = AffineMap {
    a: 2,
    b: 0,
    g: 0,
    h: 2,
    e: 0,
    f: 0,
};

// A triangle with a corner at (x, 0).
pub(crate) fn triangle_totals(x: i32) -> Result<Totals, OutlineRefusal>
    ensures { list_reading result ≡ list_call (triangle x) }
{
    let numbers = [x, 0, 0, 2000, -2000, 0];
    outline_calls::outline_totals(&numbers)
}

// The numbers of 256 rounds of the square.
fn square_numbers() -> [i32; 2048]
    ensures { result ≡ round_square 2048 }
{
    let mut numbers = [0; 2048];
    for i in 0..2048 {
        numbers[i] = SQUARE[i % 8];
    }
    numbers
}

// As many rounds of the square, doubled by a map.
pub(crate) fn doubled_square(rounds: usize) -> Result<Totals, MapRefusal>
    requires { rounds ≤ 256 }
    ensures { map_reading result ≡ map_call doubling (list_call (take (rounds * 8) (round_square 2048))).totals }
{
    let numbers = square_numbers();
    let totals = totals_of(outline_calls::outline_totals(&numbers[..rounds * 8]));
    affine::map_totals(DOUBLING, totals)
}

// One round of the square.
#[tactic(auto, unfolding(crate::specs::Plots::after_points, outline::specs::ListCall::points))]
fn walk_round(w: Walk) -> Walk
    ensures { result ≡ after_points w (points square) }
{
    let one = outline_calls::point(w, SQUARE[0], SQUARE[1]);
    let two = outline_calls::point(one.walk, SQUARE[2], SQUARE[3]);
    let three = outline_calls::point(two.walk, SQUARE[4], SQUARE[5]);
    let four = outline_calls::point(three.walk, SQUARE[6], SQUARE[7]);
    four.walk
}

// A walk of 1,024 points: 256 rounds of the square.
fn walk_square(w: Walk) -> Walk
    ensures { result ≡ walked_square w }
{
    let mut walk = walk_state::begin(w, Kind::Island).walk;
    for _round in 0..256_u32 {
        walk = walk_round(walk);
    }
    walk
}

// The point call at a position.
pub(crate) fn point_at(w: Walk, p: Position) -> WalkReply<PointRefusal>
    ensures { point_reading result ≡ point_call w p }
{
    outline_calls::point(w, p.x, p.y)
}

// Point 1,025.
pub(crate) fn point_1025(p: Position) -> WalkReply<PointRefusal>
    ensures { point_reading result ≡ point_call (walked_square closed) p }
{
    point_at(walk_square(walk_state::new_walk()), p)
}

// An outline of 256 rounds on a sheet that has `earlier` such outlines.
pub(crate) fn sheet_of_squares(earlier: u32) -> EndReply
    ensures { end_reading result ≡ end_after earlier }
{
    let mut reply = outline_calls::end(
        walk_square(walk_state::new_walk()),
        walk_state::new_sheet(),
    );
    for _done in 0..earlier {
        reply = outline_calls::end(walk_square(reply.walk), reply.sheet);
    }
    reply
}

// One run, of row 0.
pub(crate) fn run_totals(first: u32, length: u32) -> Result<Totals, RegionRefusal>
    ensures { reading result ≡ region_call (run_of first length ∷ []) }
{
    let run = Run {
        row: 0,
        first,
        length,
    };
    let runs = [run; 4097];
    region_array::region_totals_of(runs, 1)
}

// The end of an open walk of `count` points with this A2, an island, on a new sheet.
pub(crate) fn handed_in(count: u32, a2: i64) -> EndReply
    ensures { end_reading result ≡ end_call (handed_in count a2) new_sheet }
{
    let totals = Totals { a2, ..ZEROS };
    let walk = walk_state::open_walk(Kind::Island, count, ORIGIN, ORIGIN, totals, 0.0);
    outline_calls::end(walk, walk_state::new_sheet())
}
