// The text for what an input holds.
ghost use Rattle.std.specs.Prelude.{◌≤◌, length};
ghost use Rattle.text.specs.Printing.{Answers, Few, opened_text, refused_text};

use crate::lines::{put_image, put_input, put_posts, put_stop};
use crate::running::put_run;
use crate::sinks::Sink;
use inputs::{Input, InputError};
use machine::{Refusal, Row};

// The text of an input that is not run: why, and before it the first line where there is a table.
fn put_refused<S: Sink>(out: S, error: InputError) -> S
    requires few { Few error }
    requires room { length (refused_text error) ≤ S.space out }
    ensures { S.appended out (refused_text error) result }
{
    match error {
        InputError::BadBytes => put_input(out, Refusal::BadBytes),
        InputError::BadImage(error) => put_image(out, error),
        InputError::TooMany { size } => {
            put_stop(put_posts(out, size as u32), 0, Refusal::TooManyWords)
        }
    }
}

// The text of an opened input. The run changes the rows.
pub(crate) fn put_text<S: Sink>(
    out: S,
    opened: Result<Input<'_>, InputError>,
    rows: &mut [Row],
) -> S
    requires answers { Answers opened rows.old }
    requires room { length (opened_text opened rows.old) ≤ S.space out }
    ensures { S.appended out (opened_text opened.entry rows.old) result }
{
    match opened {
        Ok(found) => {
            let first = put_posts(out, found.size as u32);
            put_run(first, &mut rows[..found.size], found.events)
        }
        Err(error) => put_refused(out, error),
    }
}
