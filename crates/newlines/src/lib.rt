// Where a line ends: document 01, "The text program".
#![tactic(auto)]

ghost use Rattle.std.specs.Prelude.{◌≡◌, ◌+◌, drop};
ghost use Rattle.newlines.specs.LineLength.{line_length};

use memchr::memchr;

// Where the first newline from `at` on stands, or the length; `at` itself where that is past the end. It is not
// laid into the loop over a chunk's lines, so that the state of that loop can stay in registers.
#[inline(never)]
pub fn newline(s: &[u8], at: usize) -> usize
    ensures { result ≡ at + line_length (drop at s.now) }
{
    let rest = &s[at.min(s.len())..];
    at + memchr(b'\n', rest).unwrap_or(rest.len())
}
