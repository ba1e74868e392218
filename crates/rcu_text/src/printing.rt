//! The parts of a reply.
ghost use Rattle.std.specs.Prelude.{◌≡◌, ◌+◌, ◌≤◌, decimal, length};
ghost use Rattle.rcu_text.specs.Outputs.{Puts, after_put_text};
ghost use Rattle.rcu_text.specs.Texts.{counts_text, numbered_text, space_and_number};
ghost use Rattle.rcu_text.specs.Texts.{text_and_number};

use crate::block_writer::Output;
use crate::streams::Failed;
use itoa::write_digits;

/// The most bytes of a reply that is no list.
pub const LONGEST_REPLY: usize = 128;

/// The most digits of a number.
const MOST_DIGITS: usize = 20;

/// The most bytes of a number with a space before it.
const LONGEST_NUMBER: usize = 21;

/// Prints a reply of one text.
#[inline(always)]
pub fn put_line<O: Output>(out: &mut O, line: &[u8]) -> Result<(), Failed>
    requires { length line.now ≤ 128 }
    ensures { Puts result (O.out out.old) (O.out out.new) line.now }
{
    out.make_room(LONGEST_REPLY)?;
    out.put_text(line);
    Ok(())
}

/// Prints a reply of a text with a number behind it.
#[inline(always)]
pub fn put_numbered<O: Output>(out: &mut O, text: &[u8], n: u64) -> Result<(), Failed>
    requires { length text.now ≤ 32 }
    ensures { Puts result (O.out out.old) (O.out out.new) (numbered_text text.now n) }
{
    out.make_room(LONGEST_REPLY)?;
    push_numbered(out, text, n);
    out.put_byte(b'\n');
    Ok(())
}

/// Prints a reply of two numbers, each behind its text.
#[inline(always)]
pub fn put_counts<O: Output>(
    out: &mut O,
    first: &[u8],
    n: u64,
    second: &[u8],
    m: u64,
) -> Result<(), Failed>
    requires first { length first.now ≤ 32 }
    requires second { length second.now ≤ 32 }
    ensures { Puts result (O.out out.old) (O.out out.new)
        (counts_text first.now n second.now m) }
{
    out.make_room(LONGEST_REPLY)?;
    push_numbered(out, first, n);
    push_numbered(out, second, m);
    out.put_byte(b'\n');
    Ok(())
}

/// Puts a text with a number behind it.
#[inline(always)]
pub fn push_numbered<O: Output>(out: &mut O, text: &[u8], n: u64)
    requires { length text.now + 20 ≤ (O.out out.old).room }
    ensures puts { O.out out.new ≡ after_put_text (O.out out.old) (text_and_number text.now n) }
    ensures short { length (text_and_number text.now n) ≤ length text.now + 20 }
{
    out.put_text(text);
    push_number(out, n);
}

/// Prints a space and a number.
pub fn put_spaced<O: Output>(out: &mut O, n: u64) -> Result<(), Failed>
    ensures { Puts result (O.out out.old) (O.out out.new) (space_and_number n) }
{
    out.make_room(LONGEST_NUMBER)?;
    out.put_byte(b' ');
    push_number(out, n);
    Ok(())
}

/// Puts a number as a plain decimal.
#[inline(always)]
pub fn push_number<O: Output>(out: &mut O, n: u64)
    requires { 20 ≤ (O.out out.old).room }
    ensures puts { O.out out.new ≡ after_put_text (O.out out.old) (decimal n) }
    ensures short { length (decimal n) ≤ 20 }
{
    if n < 10 {
        // Most numbers of a reply have one digit.
        out.put_byte(b'0' + n as u8);
    } else {
        push_digits(out, n);
    }
}

#[inline(never)]
fn push_digits<O: Output>(out: &mut O, n: u64)
    requires { 20 ≤ (O.out out.old).room }
    ensures puts { O.out out.new ≡ after_put_text (O.out out.old) (decimal n) }
    ensures short { length (decimal n) ≤ 20 }
{
    let mut digits = [0; MOST_DIGITS];
    let start = write_digits(n, &mut digits, MOST_DIGITS);
    out.put_text(&digits[start..]);
}
