// Event words taken apart and put together, without a table (machine/specs/Words.antt).
#![tactic(auto)]

ghost use Rattle.std.specs.Prelude.{◌≡◌, ◌&&◌, eqb};
ghost use Rattle.machine.specs.Refusals.{numbered};
ghost use Rattle.machine.specs.Words.{is_kind, kind_number, kind_of, process_of, argument_of, formed, fields_in, apart, together};

use machine::{Kind, Parts, Refusal};

// Whether a number is one of the kinds of word.
fn is_kind(kind: u32) -> bool
    ensures { result ≡ is_kind kind }
{
    (Kind::Stay as u32 <= kind) & (kind <= Kind::Cancel as u32)
}

// The kind of a word, bits 31 to 28.
pub fn kind_of(w: u32) -> u16
    ensures { result ≡ kind_of w }
{
    (w >> 28) as u16
}

// The process of a word, bits 23 to 16.
pub fn process_of(w: u32) -> u16
    ensures { result ≡ process_of w }
{
    ((w >> 16) % 256) as u16
}

// The argument of a word, bits 7 to 0.
pub fn argument_of(w: u32) -> u16
    ensures { result ≡ argument_of w }
{
    (w % 256) as u16
}

// Whether a word is of one of the kinds and its spare bits are 0.
pub fn formed(w: u32) -> bool
    ensures { result ≡ formed w }
{
    is_kind(w >> 28) & (((w >> 24) % 16 == 0) & ((w >> 8) % 256 == 0))
}

// Whether a word is of this kind and its spare bits are 0: what is left of it without process and
// argument is compared once.
pub fn is_of(word: u32, kind: Kind) -> bool
    ensures { result ≡ (formed word && eqb (kind_of word) (kind_number kind)) }
{
    let head = word - word % 256 - (word >> 16) % 256 * 65536;
    head == (kind as u32) * 268435456
}

// The parts of a word; or 8 where it is not formed, then 9 for a process over 15.
pub fn take_apart(word: u32) -> Result<Parts, Refusal>
    ensures { numbered (fields_in result) ≡ apart word }
{
    if !formed(word) {
        return Err(Refusal::BadKind);
    }
    let process = process_of(word);
    if 15 < process {
        return Err(Refusal::NoProcess);
    }
    let kind = Kind::try_from(word >> 28)?;
    let argument = argument_of(word);
    Ok(Parts {
        kind,
        process,
        argument,
    })
}

// The word of a kind, a process and an argument; or 8, then 9, then 11 where one is out of range.
pub fn put_together(kind: u32, process: u32, argument: u32) -> Result<u32, Refusal>
    ensures { numbered result ≡ together kind process argument }
{
    if !is_kind(kind) {
        return Err(Refusal::BadKind);
    }
    if 15 < process {
        return Err(Refusal::NoProcess);
    }
    if 255 < argument {
        return Err(Refusal::BadArgument);
    }
    Ok(kind * 268435456 + process * 65536 + argument)
}
