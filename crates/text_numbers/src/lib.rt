// Numbers of the text program: an optional minus and one to four digits.
#![tactic(auto)]

ghost use Rattle.std.specs.Prelude.{◌≡◌, true, cond, [], ◌∷◌, ◌<◌, pos, neg_ℤ};
ghost use Rattle.text_numbers.specs.Numbers.{is_digit};
ghost use Rattle.text_numbers.specs.LeadingNumber.{leading_number};
ghost use Rattle.text_numbers.specs.private.Digits.{digits_at};

// A number and how many bytes it takes, with its minus.
#[derive(Clone, Copy)]
pub struct NumberAt<T> {
    pub value: T,
    pub size: usize,
}

// A number of one digit; a zero takes no minus.
fn one_digit(minus: bool, digit: u8) -> Option<NumberAt<u32>>
    requires { is_digit digit ≡ true }
    ensures { result ≡ digits_at minus (digit ∷ []) }
{
    if minus && digit == b'0' {
        None
    } else {
        Some(NumberAt {
            value: digit as u32 - 48,
            size: 1,
        })
    }
}

// The digits that a, b, c and d begin with: four at most, no leading zero but 0 itself. Two digits without a leading zero are
// 10 or more, so the sums with c and d do not go below 0 and are made before the tests of c and d, which then need no branch.
fn digits(minus: bool, a: u8, b: u8, c: u8, d: u8) -> Option<NumberAt<u32>>
    ensures { result ≡ digits_at minus (a ∷ b ∷ c ∷ d ∷ []) }
{
    if !a.is_ascii_digit() {
        return None;
    }
    if !b.is_ascii_digit() {
        return one_digit(minus, a);
    }
    if a == b'0' {
        return None;
    }
    let two = 10 * a as u32 + b as u32 - 528;
    let three = 10 * two + c as u32 - 48;
    let four = 10 * three + d as u32 - 48;
    if !c.is_ascii_digit() {
        return Some(NumberAt {
            value: two,
            size: 2,
        });
    }
    if !d.is_ascii_digit() {
        return Some(NumberAt {
            value: three,
            size: 3,
        });
    }
    Some(NumberAt {
        value: four,
        size: 4,
    })
}

fn signed(minus: bool, v: u32) -> i32
    requires { v < 10000 }
    ensures { result ≡ cond minus (neg_ℤ (pos v)) (pos v) }
{
    if minus { -(v as i32) } else { v as i32 }
}

// The number that stands at the front of a, b, c and d, behind a minus or behind none.
pub fn leading_number(minus: bool, a: u8, b: u8, c: u8, d: u8) -> Option<NumberAt<i32>>
    ensures { result ≡ leading_number minus (a ∷ b ∷ c ∷ d ∷ []) }
{
    let n = digits(minus, a, b, c, d)?;
    Some(NumberAt {
        value: signed(minus, n.value),
        size: minus as usize + n.size,
    })
}
