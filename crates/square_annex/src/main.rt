// Document 02, CR 6: prints the annex of square sums, one entry a line. Each entry is the one before and a square more. The constant of `square_table` is not read, or
// a comparison of the two would compare a thing with itself.
#![tactic(auto)]

ghost use Rattle.std.specs.Prelude.{◌≡◌, ◌+◌, ◌≤◌, true, length};
ghost use Rattle.std.specs.Io.KnownBytes.{Appends};
ghost use Rattle.decimals.specs.Buffer.{field_room, Written};
ghost use Rattle.column_sums.specs.Annex.{square_sums};
ghost use Rattle.square_annex.specs.Printed.{line_of, lines_of};

use std::io::Write;

// An entry's digits and a newline. Answers the place past them.
fn put_line(out: &mut [u8], at: usize, entry: u32) -> usize
    requires { at + field_room ≤ length out.old }
    ensures { Written out.old at (line_of entry) out.new result }
{
    let end = decimals::put_digits(out, at, entry as u64);
    out[end] = b'\n';
    end + 1
}

// The whole annex, at the front of the buffer. Answers its size. The last turn adds a square that no line shows; it fits as well.
fn annex(out: &mut [u8]) -> usize
    requires { 65536 ≡ length out.old }
    ensures { Written out.old 0 (lines_of square_sums) out.new result }
{
    let mut at = 0;
    let mut sum = 0;
    for k in 0..1025 {
        at = put_line(out, at, sum);
        sum += k * k;
    }
    at
}

// To a writer; answers whether all of it is written.
fn print<W: Write>(output: &mut W, text: &[u8]) -> bool
    requires { text.now ≡ lines_of square_sums }
    ensures { result ≡ true → Appends (W.contents output.old) (W.contents output.new) (lines_of square_sums) }
{
    output.write_all(text).is_ok()
}

fn report_unwritten(rt: &impl Eprint) {
    let _ = eprintln!(rt; "square_annex: the output could not be written");
}

fn main(rt: HostRuntime) {
    let mut out = [0; 65536];
    let size = annex(&mut out);
    if !print(&mut rt.stdout(), &out[..size]) {
        report_unwritten(&rt);
    }
}
