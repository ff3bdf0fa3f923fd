// The form of the line at a place of a chunk: document 01, "The text program", and document 02, CR 3.
#![tactic(auto)]

mod form;

ghost use Rattle.std.specs.Prelude.{◌≡◌};
ghost use Rattle.parsing.specs.ReadForm.{form_at, reading};

use form::front_form;
use outline::Kind;

// The longest form takes so many bytes with its newline.
const LONGEST: usize = 14;

// The forms of a line.
#[derive(Clone, Copy)]
pub enum LineForm {
    Begin(Kind),
    End,
    Abandon,
    Point(i32, i32),
}

// A line that has one of the forms, and where the next line begins.
#[derive(Clone, Copy)]
pub struct Line {
    pub form: LineForm,
    pub next: usize,
}

// The line at `at`, if it has a form, be it ended by a newline or by the end of s. The next line begins past that newline, or past
// the one that would stand there.
pub fn line_form(s: &[u8], at: usize) -> Option<Line>
    ensures { reading result ≡ form_at s.now at }
{
    let rest = &s[at.min(s.len())..];
    // With fewer bytes left than the reader looks at, it reads a copy that newlines follow.
    let mut copy = [b'\n'; LONGEST];
    let text = if rest.len() < LONGEST {
        copy[..rest.len()].copy_from_slice(rest);
        &copy
    } else {
        rest
    };
    let line = front_form(text)?;
    Some(Line {
        next: at + line.next,
        ..line
    })
}
