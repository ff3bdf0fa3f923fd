// The digits of a number, the first one first. A number is cut in halves of eight, four and two digits, so that no loop is left and few divisions wait for one another.
ghost use Rattle.std.specs.Prelude.{◌+◌, ◌<◌, ◌≤◌, length};
ghost use Rattle.decimals.specs.Decimal.{decimal};
ghost use Rattle.decimals.specs.private.Digits.{last_digits};
ghost use Rattle.decimals.specs.Buffer.{Written};

// ---- all digits of a piece, with zeros at its front

fn two_digits(out: &mut [u8], at: usize, n: u64) -> usize
    requires n_bound { n < 100 }
    requires at_in_bounds { at + 2 ≤ length out.old }
    ensures { Written out.old at (last_digits 2 n) out.new result }
{
    out[at] = b'0' + (n / 10) as u8;
    out[at + 1] = b'0' + (n % 10) as u8;
    at + 2
}

fn four_digits(out: &mut [u8], at: usize, n: u64) -> usize
    requires n_bound { n < 10_000 }
    requires at_in_bounds { at + 4 ≤ length out.old }
    ensures { Written out.old at (last_digits 4 n) out.new result }
{
    let a = two_digits(out, at, n / 100);
    two_digits(out, a, n % 100)
}

fn eight_digits(out: &mut [u8], at: usize, n: u64) -> usize
    requires n_bound { n < 100_000_000 }
    requires at_in_bounds { at + 8 ≤ length out.old }
    ensures { Written out.old at (last_digits 8 n) out.new result }
{
    let a = four_digits(out, at, n / 10_000);
    four_digits(out, a, n % 10_000)
}

// ---- a number of so many digits at most

fn up_to_two(out: &mut [u8], at: usize, n: u64) -> usize
    requires n_bound { n < 100 }
    requires n_in_bounds { at + length (decimal n) ≤ length out.old }
    ensures { Written out.old at (decimal n) out.new result }
{
    if n < 10 {
        out[at] = b'0' + n as u8;
        return at + 1;
    }
    two_digits(out, at, n)
}

fn up_to_four(out: &mut [u8], at: usize, n: u64) -> usize
    requires n_bound { n < 10_000 }
    requires n_in_bounds { at + length (decimal n) ≤ length out.old }
    ensures { Written out.old at (decimal n) out.new result }
{
    if n < 100 {
        return up_to_two(out, at, n);
    }
    let a = up_to_two(out, at, n / 100);
    two_digits(out, a, n % 100)
}

fn up_to_eight(out: &mut [u8], at: usize, n: u64) -> usize
    requires n_bound { n < 100_000_000 }
    requires n_in_bounds { at + length (decimal n) ≤ length out.old }
    ensures { Written out.old at (decimal n) out.new result }
{
    if n < 10_000 {
        return up_to_four(out, at, n);
    }
    let a = up_to_four(out, at, n / 10_000);
    four_digits(out, a, n % 10_000)
}

fn up_to_sixteen(out: &mut [u8], at: usize, n: u64) -> usize
    requires n_bound { n < 10_000_000_000_000_000 }
    requires n_in_bounds { at + length (decimal n) ≤ length out.old }
    ensures { Written out.old at (decimal n) out.new result }
{
    if n < 100_000_000 {
        return up_to_eight(out, at, n);
    }
    let a = up_to_eight(out, at, n / 100_000_000);
    eight_digits(out, a, n % 100_000_000)
}

pub(crate) fn up_to_twenty(out: &mut [u8], at: usize, n: u64) -> usize
    requires { at + length (decimal n) ≤ length out.old }
    ensures { Written out.old at (decimal n) out.new result }
{
    if n < 100_000_000 {
        return up_to_eight(out, at, n);
    }
    let a = up_to_sixteen(out, at, n / 100_000_000);
    eight_digits(out, a, n % 100_000_000)
}
