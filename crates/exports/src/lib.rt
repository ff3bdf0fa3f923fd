// Calls for programs in other languages: the static library defines each under its plain name. A number passes as itself, a list or a buffer as a pointer and then a
// length. Each answers 0; or the number of a refusal, with zeros for its values; or 100 where the buffer is too short. Thin: the calls on one
// outline hand on to outline_replies, mavrihkel_compare_walks to comparison_replies, mavrihkel_third_moments to third_replies, mavrihkel_fix_point to fix_replies, and mavrihkel_mask_totals to mask_replies; mavrihkel_region_totals asks cells and has region_replies write the answer,
// and mavrihkel_mask_runs asks masks and has mask_replies write it. Since document 02, CR 2, cells have the totals of their ground: the names of before,
// mavrihkel_region_sums and mavrihkel_mask_sums, are not used again, so that an old program fails to link instead of reading other figures.
#![tactic(auto)]

ghost use Rattle.std.specs.Prelude.{◌≡◌};
ghost use Rattle.outline.specs.ListCall.{list_call};
ghost use Rattle.outline.specs.MapCall.{map_call};
ghost use Rattle.centroid.specs.Centroid.{outline_centroid_call};
ghost use Rattle.outline_replies.specs.OutlineReply.{totals_reply, centre_reply};
ghost use Rattle.two_walks.specs.Comparison.{figures_call, part_of};
ghost use Rattle.comparison_replies.specs.ComparisonReply.{comparison_reply};
ghost use Rattle.third_order.specs.ThirdCall.{third_call};
ghost use Rattle.third_replies.specs.ThirdReply.{third_reply};
ghost use Rattle.outline.specs.FixCall.{fix_point_call};
ghost use Rattle.fix_replies.specs.FixReply.{fix_reply};
ghost use Rattle.cells.specs.RegionCall.{region_call};
ghost use Rattle.region_replies.specs.RegionReply.{region_reply};
ghost use Rattle.mask_cells.specs.MaskCalls.{mask_totals_call, mask_runs_call};
ghost use Rattle.mask_replies.specs.MaskReply.{mask_runs_reply};

use cells::Run;
use outline::{AffineMap, Totals};
use replies::SHORT_BUFFER;

// The call on a whole outline, x and y in turn: 0, 1 or 2, and the six totals.
#[unsafe(no_mangle)]
pub extern "C" fn mavrihkel_outline_totals(points: &[i32], out: &mut [i64]) -> u32
    ensures { record { number = result; buffer = out.new } ≡ totals_reply (list_call points.now) out.old }
{
    outline_replies::outline_totals_reply(points, out)
}

// The map call on u = a x + b y + e, v = g x + h y + f and six totals: 0, 3, 4 or 5, and the six mapped totals.
#[unsafe(no_mangle)]
pub extern "C" fn mavrihkel_map_totals(
    a: i32,
    b: i32,
    g: i32,
    h: i32,
    e: i32,
    f: i32,
    a2: i64,
    x6: i64,
    y6: i64,
    xx12: i64,
    xy24: i64,
    yy12: i64,
    out: &mut [i64],
) -> u32
    ensures { record { number = result; buffer = out.new } ≡ totals_reply (map_call (record { a = a; b = b; g = g; h = h; e = e; f = f }) (record { a2 = a2; x6 = x6; y6 = y6; xx12 = xx12; xy24 = xy24; yy12 = yy12 })) out.old }
{
    let m = AffineMap { a, b, g, h, e, f };
    let t = Totals {
        a2,
        x6,
        y6,
        xx12,
        xy24,
        yy12,
    };
    outline_replies::map_totals_reply(m, t, out)
}

// The centre of six totals, of an outline, a sheet or cells: 0, 11 or 27, and the centre's x and y.
#[unsafe(no_mangle)]
pub extern "C" fn mavrihkel_outline_centroid(
    a2: i64,
    x6: i64,
    y6: i64,
    xx12: i64,
    xy24: i64,
    yy12: i64,
    out: &mut [i64],
) -> u32
    ensures { record { number = result; buffer = out.new } ≡ centre_reply (outline_centroid_call (record { a2 = a2; x6 = x6; y6 = y6; xx12 = xx12; xy24 = xy24; yy12 = yy12 })) out.old }
{
    let t = Totals {
        a2,
        x6,
        y6,
        xx12,
        xy24,
        yy12,
    };
    outline_replies::outline_centroid_reply(t, out)
}

// The comparison of two walks, each x and y in turn: 0, 1 or 2, and ten values: the six differences, first minus second, the squared distances from the first's points to the second
// and from the second's to the first, which list is handed back, and how many numbers of it.
#[unsafe(no_mangle)]
pub extern "C" fn mavrihkel_compare_walks<'a>(
    first: &'a [i32],
    second: &'a [i32],
    out: &mut [i64],
) -> u32
    ensures { record { number = result; buffer = out.new } ≡ comparison_reply (figures_call first.now second.now) (part_of first.now second.now) out.old }
{
    comparison_replies::compare_walks_reply(first, second, out)
}

// The third moments of a whole outline, x and y in turn: 0, 2, 1 or 35, and the four totals by falling power of x.
#[unsafe(no_mangle)]
pub extern "C" fn mavrihkel_third_moments(points: &[i32], out: &mut [i64]) -> u32
    ensures { record { number = result; buffer = out.new } ≡ third_reply (third_call points.now) out.old }
{
    third_replies::third_moments_reply(points, out)
}

// The point of a receiver's fix, east and north of the peg in decimetres: 0, 33 or 1, and the point's x and y.
#[unsafe(no_mangle)]
pub extern "C" fn mavrihkel_fix_point(east: f32, north: f32, out: &mut [i64]) -> u32
    ensures { record { number = result; buffer = out.new } ≡ fix_reply (fix_point_call (record { east = east; north = north })) out.old }
{
    fix_replies::fix_point_reply(east, north, out)
}

// The call on a list of runs: 0, 6, 7 or 8, the six totals of the ground under its cells, and with 6 or 7 the lowest index of a run that breaks it.
#[unsafe(no_mangle)]
pub extern "C" fn mavrihkel_region_totals(runs: &[Run], out: &mut [i64]) -> u32
    ensures { record { number = result; buffer = out.new } ≡ region_reply (region_call runs.now) out.old }
{
    let answer = cells::region_totals(runs);
    region_replies::region_reply(answer, out)
}

// The call for the totals of a mask: 0 or 31, and the six totals of the ground under its marked cells.
#[unsafe(no_mangle)]
pub extern "C" fn mavrihkel_mask_totals(words: &[u64], out: &mut [i64]) -> u32
    ensures { record { number = result; buffer = out.new } ≡ totals_reply (mask_totals_call words.now) out.old }
{
    mask_replies::mask_totals_reply(words, out)
}

// The call for the runs of a mask, into the caller's list: 0, 8 or 31, and how many runs were written. Where the buffer is too short nothing is written at all.
#[unsafe(no_mangle)]
pub extern "C" fn mavrihkel_mask_runs(words: &[u64], runs: &mut [Run], out: &mut [i64]) -> u32
    ensures { record { number = result; runs = runs.new; buffer = out.new } ≡ mask_runs_reply (mask_runs_call words.now runs.old) runs.old out.old }
{
    if out.len() < 1 {
        return SHORT_BUFFER;
    }
    let answer = masks::mask_runs(words, runs);
    mask_replies::mask_runs_reply(answer, out)
}
