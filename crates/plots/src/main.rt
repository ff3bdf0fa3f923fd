// Document 01's text program, from standard input to standard output. What the bytes give is `stream`'s to say; here they are read and written, 64 KB at a time.
#![tactic(auto)]

ghost use Rattle.std.specs.Prelude.{◌≡◌, ◌-◌, ◌≤◌, ◌<◌, pos, length, take, drop, OnOk, OnErr, IfOk, IfSome};
ghost use Rattle.std.specs.Io.KnownBytes.{Appends, Consumes, IsAtEnd, Keeps};
ghost use Rattle.text_program.specs.Program.{program};
ghost use Rattle.plots.specs.Front.{AppendsFront};

use std::io::{Read, Write};
use std::os::fd::AsRawFd;

// Why a run stops before the S line.
#[derive(Clone, Copy)]
enum Failure {
    Unread,
    Unwritten,
}

// One read after the first `have` bytes; answers how many it gave. There is room: a read into none would look like the end of the input.
fn read_after<R: Read>(input: &mut R, buf: &mut [u8], have: usize) -> Result<usize, Failure>
    requires { have < length buf.old }
    ensures size_in_bounds { IfOk result (λ size. size ≤ length buf.old - have) }
    ensures buf_unchanged { take have buf.new ≡ take have buf.old }
    ensures taken { IfOk result (λ size. Consumes (R.remaining input.old) (R.remaining input.new) (take size (drop have buf.new))) }
    ensures end { IfOk result (λ size. size ≡ 0 → IsAtEnd (R.remaining input.new)) }
    ensures none_taken { OnErr result (Keeps (R.remaining input.old) (R.remaining input.new)) }
{
    input.read(&mut buf[have..]).map_err(|_| Failure::Unread)
}

// Writes all of the text, or stops at the first write that fails or takes nothing.
fn write_all<W: Write>(output: &mut W, text: &[u8]) -> Result<(), Failure>
    ensures whole { OnOk result (Appends (W.contents output.old) (W.contents output.new) text.now) }
    ensures front { OnErr result (AppendsFront (W.contents output.old) (W.contents output.new) text.now) }
{
    let mut rest = text;
    while !rest.is_empty() {
        match output.write(rest) {
            Ok(0) | Err(_) => return Err(Failure::Unwritten),
            Ok(n) => rest = &rest[n..],
        }
    }
    Ok(())
}

// All that a call has put is written. Where it has left room for another line, it has done what it could, and only reading helps. (proofs/Turns shows that this comes
// to an end, with 10 if not before; proofs/SoFar, that what is written up to the S line is the output for what was read.) An S line means that all of the input was
// seen: none follows a read or a write that failed.
fn run<R: Read + AsRawFd, W: Write + AsRawFd>(
    input: &mut R,
    output: &mut W,
    buf: &mut [u8],
    out: &mut [u8],
) -> Result<(), Failure>
    requires buf_size { 65536 ≡ length buf.old }
    requires out_size { 65536 ≡ length out.old }
    requires from_standard_input { (r : _) → R.raw_fd r ≡ Some (pos 0) }
    requires to_standard_output { (w : _) → W.raw_fd w ≡ Some (pos 1) }
    ensures all_written { OnOk result (IfSome (R.remaining input.old) (λ bytes.
        Appends (W.contents output.old) (W.contents output.new) (program bytes))) }
    ensures front_written { OnErr result (IfSome (R.remaining input.old) (λ bytes.
        AppendsFront (W.contents output.old) (W.contents output.new) (program bytes))) }
{
    let mut state = stream::start();
    let mut sheet = walk_state::new_sheet();
    let mut at = 0;
    let mut have = 0;
    let mut last = false;
    loop {
        let fed = stream::feed(state, sheet, &buf[at..have], last, out);
        write_all(output, &out[..fed.filled])?;
        state = fed.state;
        sheet = fed.sheet;
        at += fed.used;
        if state.written {
            return Ok(());
        }
        if out.len() - fed.filled < printing::LINE_ROOM {
            continue;
        }
        buf.copy_within(at..have, 0);
        have -= at;
        at = 0;
        let size = read_after(input, buf, have)?;
        last = size == 0;
        have += size;
    }
}

// In one write, so that the lines of runs side by side do not mix.
fn report<W: Write + AsRawFd>(errors: &mut W, failure: Failure)
    requires { W.raw_fd errors.old ≡ Some (pos 2) }
{
    let line = match failure {
        Failure::Unread => "plots: the input could not be read\n",
        Failure::Unwritten => "plots: the output could not be written\n",
    };
    let _ = write_all(errors, line.as_bytes());
}

fn main(rt: HostRuntime) {
    let mut buf = [0; 65536];
    let mut out = [0; 65536];
    if let Err(failure) = run(&mut rt.stdin(), &mut rt.stdout(), &mut buf, &mut out) {
        report(&mut rt.stderr(), failure);
    }
}
