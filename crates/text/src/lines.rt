// The lines of a text: a text and numbers, or the fields of a taken word.
ghost use Rattle.std.specs.Prelude.{◌≡◌, ◌≤◌, ◌∷◌, [], length};
ghost use Rattle.machine.specs.Refusals.{number};
ghost use Rattle.machine.specs.Text.{spaced, line, input_text, image_text, posts_text, done_line, stop_line};
ghost use Rattle.text.specs.Lines.{taken_line};

use crate::fields::{put_cell, put_field, put_number};
use crate::sinks::Sink;
use machine::{ImageError, Refusal, SharedCell};

// What the line of a taken word tells: the word's place and process, the location of that process
// before and after, how many are at 30 after it, and the shared cell that it used.
#[derive(Clone, Copy, Debug, PartialEq, Eq)]
pub struct TakenWord {
    pub place: u32,
    pub process: u16,
    pub from: u16,
    pub to: u16,
    pub inside: u16,
    pub cell: SharedCell,
}

// Numbers with a space between two.
fn put_numbers<S: Sink>(out: S, numbers: &[u32]) -> S
    requires { length (spaced numbers.now) ≤ S.space out }
    ensures { S.appended out (spaced numbers.now) result }
{
    match numbers {
        [] => out,
        [n] => put_number(out, *n),
        [n, rest @ ..] => put_numbers(put_field(out, *n), rest),
    }
}

// A text, numbers with a space between two, a line feed.
fn put_line<S: Sink>(out: S, head: &[u8], numbers: &[u32]) -> S
    requires { length (line head.now numbers.now) ≤ S.space out }
    ensures { S.appended out (line head.now numbers.now) result }
{
    put_numbers(out.put_bytes(head), numbers).put_byte(b'\n')
}

// The line of a taken word: its five numbers and its shared cell. Number by number: a loop over
// them is not unrolled, and a printed word then takes 371 instructions in place of 256.
pub(crate) fn put_taken<S: Sink>(out: S, word: TakenWord) -> S
    requires { length (taken_line word) ≤ S.space out }
    ensures { S.appended out (taken_line word) result }
{
    let out = put_field(out, word.place);
    let out = put_field(out, word.process as u32);
    let out = put_field(out, word.from as u32);
    let out = put_field(out, word.to as u32);
    let out = put_field(out, word.inside as u32);
    put_cell(out, word.cell).put_byte(b'\n')
}

// A refusal by its number.
fn number_of(refusal: Refusal) -> u32
    ensures { result ≡ number refusal }
{
    u16::from(refusal) as u32
}

// The line of an input whose bytes are refused.
pub(crate) fn put_input<S: Sink>(out: S, why: Refusal) -> S
    requires { length (line input_text (number why ∷ [])) ≤ S.space out }
    ensures { S.appended out (line input_text (number why ∷ [])) result }
{
    put_line(out, b"input ", &[number_of(why)])
}

// The line of a refused image.
pub(crate) fn put_image<S: Sink>(out: S, error: ImageError) -> S
    requires { length (line image_text (error.place ∷ number error.refusal ∷ [])) ≤ S.space out }
    ensures { S.appended out (line image_text (error.place ∷ number error.refusal ∷ [])) result }
{
    put_line(
        out,
        b"image ",
        &[error.place as u32, number_of(error.refusal)],
    )
}

// The first line, for a table of `size` processes.
pub(crate) fn put_posts<S: Sink>(out: S, size: u32) -> S
    requires { length (line posts_text (size ∷ [])) ≤ S.space out }
    ensures { S.appended out (line posts_text (size ∷ [])) result }
{
    put_line(out, b"posts ", &[size])
}

// The last line of a run in which every word was taken.
pub(crate) fn put_done<S: Sink>(out: S, taken: u32) -> S
    requires { length (done_line taken) ≤ S.space out }
    ensures { S.appended out (done_line taken) result }
{
    put_line(out, b"done ", &[taken])
}

// The last line of a run that a refusal stopped.
pub(crate) fn put_stop<S: Sink>(out: S, taken: u32, why: Refusal) -> S
    requires { length (stop_line taken (number why)) ≤ S.space out }
    ensures { S.appended out (stop_line taken (number why)) result }
{
    put_line(out, b"stop ", &[taken, number_of(why)])
}
