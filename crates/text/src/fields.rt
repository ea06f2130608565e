// Numbers and shared cells.
ghost use Rattle.std.specs.Prelude.{◌≡◌, cond, ◌∷◌, [], ◌++◌, ◌+◌, ◌<◌, ◌≤◌, length};
ghost use Rattle.machine.specs.Text.{decimal, cell_text};
ghost use Rattle.text.specs.Fields.{pair, field};

use crate::sinks::Sink;
use machine::SharedCell;

// The numbers below 100 as two digits each. Looked up, two digits take 5 instructions in place of 10.
static PAIRS: [u8; 200] =
    *b"00010203040506070809101112131415161718192021222324252627282930313233343536373839404142434445464748495051525354555657585960616263646566676869707172737475767778798081828384858687888990919293949596979899";

// The digit of a number below 10.
fn digit(n: u32) -> u8
    requires { n < 10 }
    ensures { result ≡ 48 + n }
{
    (48 + n) as u8
}

// A number below 100 as two digits, the first 0 below 10.
#[inline(always)]
fn put_pair<S: Sink>(out: S, n: u32) -> S
    requires low { n < 100 }
    requires room { 2 ≤ S.space out }
    ensures { S.appended out (pair n) result }
{
    let at = 2 * n as usize;
    out.put_byte(PAIRS[at]).put_byte(PAIRS[at + 1])
}

// The decimal digits of a number below 100.
#[inline(always)]
fn put_short<S: Sink>(out: S, n: u32) -> S
    requires low { n < 100 }
    requires room { length (decimal n) ≤ S.space out }
    ensures { S.appended out (decimal n) result }
{
    if n < 10 {
        out.put_byte(digit(n))
    } else {
        put_pair(out, n)
    }
}

// The decimal digits of a number that has three or four: those of its hundredth, and the last two.
#[inline(always)]
fn put_middle<S: Sink>(out: S, n: u32) -> S
    requires middle { (100 ≤ n) × (n < 10000) }
    requires room { length (decimal n) ≤ S.space out }
    ensures { S.appended out (decimal n) result }
{
    put_pair(put_short(out, n / 100), n % 100)
}

// The decimal digits of a number that has three or more.
fn put_long<S: Sink>(out: S, n: u32) -> S
    requires long { 100 ≤ n }
    requires room { length (decimal n) ≤ S.space out }
    ensures { S.appended out (decimal n) result }
{
    if n < 10000 {
        return put_middle(out, n);
    }
    put_pair(put_long(out, n / 100), n % 100)
}

// The decimal digits of a number. Up to four of them the compiler puts in line.
#[inline(always)]
pub(crate) fn put_number<S: Sink>(out: S, n: u32) -> S
    requires { length (decimal n) ≤ S.space out }
    ensures { S.appended out (decimal n) result }
{
    if n < 100 {
        return put_short(out, n);
    }
    if n < 10000 {
        return put_middle(out, n);
    }
    put_long(out, n)
}

// A number and the space after it.
pub(crate) fn put_field<S: Sink>(out: S, n: u32) -> S
    requires { length (field n) ≤ S.space out }
    ensures { S.appended out (field n) result }
{
    put_number(out, n).put_byte(b' ')
}

// One of two letters.
fn letter(first: bool, one: u8, other: u8) -> u8
    ensures { result ≡ cond first one other }
{
    if first { one } else { other }
}

// A shared cell: `-` for none; else `r` or `w`, `a` or `t`, and its index.
pub(crate) fn put_cell<S: Sink>(out: S, cell: SharedCell) -> S
    requires { length (cell_text cell) ≤ S.space out }
    ensures { S.appended out (cell_text cell) result }
{
    if cell.access == 0 {
        return out.put_byte(b'-');
    }
    let letters = out
        .put_byte(letter(cell.access == machine::READ, b'r', b'w'))
        .put_byte(letter(cell.variable == machine::ACT, b'a', b't'));
    put_number(letters, cell.index as u32)
}
