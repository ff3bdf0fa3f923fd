// The lines of the output, written into a buffer that the caller lends. Each answers the place past the line.
#![tactic(auto)]

ghost use Rattle.std.specs.Prelude.{◌+◌, ◌*◌, ◌≤◌, length};
ghost use Rattle.centroid.specs.Centroid.{outline_centroid_call};
ghost use Rattle.decimals.specs.Buffer.{field_room, Written};
ghost use Rattle.printing.specs.Output.{totals_text, centre_text, figures_text, outline_line, refusal_line, sheet_line};
ghost use Rattle.printing.specs.Buffer.{fitting};

use decimals::{lacks_room, put_field, put_natural};
use outline::{Sheet, Totals};

// Room for the longest line.
pub const LINE_ROOM: usize = 192;

fn put_totals(out: &mut [u8], at: usize, t: Totals) -> usize
    requires { at + 6 * field_room ≤ length out.old }
    ensures { Written out.old at (totals_text t) out.new result }
{
    let a = put_field(out, at, t.a2);
    let b = put_field(out, a, t.x6);
    let c = put_field(out, b, t.y6);
    let d = put_field(out, c, t.xx12);
    let e = put_field(out, d, t.xy24);
    put_field(out, e, t.yy12)
}

// The centre's x and y, or a minus twice where there is none.
fn put_centre(out: &mut [u8], at: usize, t: Totals) -> usize
    requires { at + 2 * field_room ≤ length out.old }
    ensures { Written out.old at (centre_text (outline_centroid_call t)) out.new result }
{
    let Ok(centre) = centroid::outline_centroid(t) else {
        out[at..at + 4].copy_from_slice(b"\t-\t-");
        return at + 4;
    };
    let a = put_field(out, at, centre.x);
    put_field(out, a, centre.y)
}

// The totals and the centre, and the newline after them.
fn put_figures(out: &mut [u8], at: usize, t: Totals) -> usize
    requires { at + (8 * field_room + 1) ≤ length out.old }
    ensures { Written out.old at (figures_text t) out.new result }
{
    let a = put_totals(out, at, t);
    let b = put_centre(out, a, t);
    out[b] = b'\n';
    b + 1
}

// R: the line's number and the refusal's.
pub fn put_refusal(out: &mut [u8], at: usize, line: u64, number: u64) -> usize
    ensures { Written out.old at (fitting out.old at (refusal_line line number)) out.new result }
{
    if lacks_room(out.len(), at, LINE_ROOM) {
        return at;
    }
    out[at] = b'R';
    let a = put_natural(out, at + 1, line);
    let b = put_natural(out, a, number);
    out[b] = b'\n';
    b + 1
}

// O: the outline's number, its points, its totals and its centre.
pub fn put_outline(out: &mut [u8], at: usize, outlines: u32, points: u32, t: Totals) -> usize
    ensures { Written out.old at (fitting out.old at (outline_line outlines points t)) out.new result }
{
    if lacks_room(out.len(), at, LINE_ROOM) {
        return at;
    }
    out[at] = b'O';
    let a = put_natural(out, at + 1, outlines as u64);
    let b = put_natural(out, a, points as u64);
    put_figures(out, b, t)
}

// S: the sheet's count, its totals and its centre.
pub fn put_sheet(out: &mut [u8], at: usize, s: Sheet) -> usize
    ensures { Written out.old at (fitting out.old at (sheet_line s)) out.new result }
{
    if lacks_room(out.len(), at, LINE_ROOM) {
        return at;
    }
    out[at] = b'S';
    let a = put_natural(out, at + 1, s.count as u64);
    put_figures(out, a, s.totals)
}
