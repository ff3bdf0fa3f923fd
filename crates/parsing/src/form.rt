// The form of a line, read in one pass over its bytes.
ghost use Rattle.std.specs.Prelude.{◌≡◌, [], ◌∷◌, ◌+◌, ◌≤◌, length, drop, get_or};
ghost use Rattle.text_numbers.specs.Numbers.{number};
ghost use Rattle.parsing.specs.Grammar.{form_of};
ghost use Rattle.parsing.specs.ReadForm.{formed, reading};
ghost use Rattle.parsing.specs.private.Parts.{number_at, second_form, line_front};

use crate::{Line, LineForm};
use outline::Kind;
use text_numbers::{NumberAt, leading_number};

// The number at `at`, where as many bytes are left as the longest takes.
fn read_number(s: &[u8], at: usize) -> Option<NumberAt<i32>>
    requires { at + 5 ≤ length s.now }
    ensures { result ≡ number_at (drop at s.now) }
{
    let minus = s[at] == b'-';
    let i = at + minus as usize;
    leading_number(minus, s[i], s[i + 1], s[i + 2], s[i + 3])
}

// After x: a tab, y and a newline.
fn second(s: &[u8], x: i32, at: usize) -> Option<Line>
    requires { at + 7 ≤ length s.now }
    ensures { reading result ≡ line_front (second_form (number x)) (drop at s.now) at }
{
    if s[at] != b'\t' {
        return None;
    }
    let y = read_number(s, at + 1)?;
    let end = at + 1 + y.size;
    if s[end] != b'\n' {
        return None;
    }
    Some(Line {
        form: LineForm::Point(x, y.value),
        next: end + 1,
    })
}

// After P: a tab, x and the rest.
fn point_form(s: &[u8]) -> Option<Line>
    requires { 14 ≤ length s.now }
    ensures { reading result ≡ line_front (λ bs. form_of (80 ∷ bs)) (drop 1 s.now) 1 }
{
    if s[1] != b'\t' {
        return None;
    }
    let x = read_number(s, 2)?;
    second(s, x.value, 2 + x.size)
}

// A line of one byte and its newline.
fn letter_form(b: u8) -> Option<Line>
    ensures { reading result ≡ formed (form_of (b ∷ [])) 2 }
{
    let form = match b {
        b'B' => LineForm::Begin(Kind::Island),
        b'E' => LineForm::End,
        b'A' => LineForm::Abandon,
        _ => return None,
    };
    Some(Line { form, next: 2 })
}

// A line of two bytes or more that is no point's: B, a tab, H and a newline.
fn hole_form(s: &[u8]) -> Option<Line>
    requires room { 4 ≤ length s.now }
    requires no_point { get_or s.now 0 0 ≡ 80 → ⊥ }
    requires no_letter { get_or s.now 1 0 ≡ 10 → ⊥ }
    ensures { reading result ≡ line_front form_of s.now 0 }
{
    if s[0] == b'B' && s[1] == b'\t' && s[2] == b'H' && s[3] == b'\n' {
        Some(Line {
            form: LineForm::Begin(Kind::Hole),
            next: 4,
        })
    } else {
        None
    }
}

// The line at the front of s, if it has a form, where there are as many bytes as the longest takes with its newline.
pub(crate) fn front_form(s: &[u8]) -> Option<Line>
    requires { 14 ≤ length s.now }
    ensures { reading result ≡ line_front form_of s.now 0 }
{
    if s[0] == b'P' {
        point_form(s)
    } else if s[1] == b'\n' {
        letter_form(s[0])
    } else {
        hole_form(s)
    }
}
