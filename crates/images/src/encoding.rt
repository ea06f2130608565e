// Writing an image, never a bare one: the header, the four words of each row in order, the turn
// cells, then the passes. Every word is set once, in rising order.
ghost use Rattle.std.specs.Prelude.{◌≡◌, ◌+◌, ◌≤◌, ◌<◌, length};
ghost use Rattle.counting.specs.Placing.{placed};
ghost use Rattle.machine.specs.Images.{STATE, body_of, row_place, turn_place, image_of};
ghost use Rattle.images.specs.Answers.{Room, Writes};
ghost use Rattle.images.specs.Inner.{Packable, row_words_of, rows_part, turns_part};

use crate::WordKind;
use crate::counts::write_counts;
use crate::halves::{upper, whole};
use crate::sizes::{image_words, row_place, turn_place};
use machine::{Refusal, Row};
use tables::check;

// The lower half of the word with location, act, bb and level.
fn state_body(r: &Row) -> u16
    requires { Packable r.now }
    ensures { result ≡ body_of STATE r.now }
{
    rows::codes::code_of(r.location) * 4096 + r.act * 512 + r.bb * 256 + r.level
}

// The four words of process q.
fn write_row(out: &mut [u32], q: usize, r: &Row)
    requires packable { Packable r.now }
    requires q_bound { (q < 16) × (row_place q + 4 ≤ length out.old) }
    ensures { out.new ≡ placed out.old (row_place q) (row_words_of q r.now) }
{
    let i = row_place(q);
    out[i] = whole(upper(WordKind::State, q), state_body(r));
    out[i + 1] = whole(upper(WordKind::Est, q), r.est);
    out[i + 2] = whole(upper(WordKind::Lis, q), r.lis);
    out[i + 3] = whole(upper(WordKind::Ahead, q), r.ahead);
}

// The words of all processes of a sound table, after the header.
fn write_rows(rows: &[Row], out: &mut [u32])
    requires { Room rows.now out.old }
    ensures { out.new ≡ placed out.old 1 (rows_part rows.now) }
{
    for (q, row) in rows.iter().enumerate() {
        write_row(out, q, row);
    }
}

// The words of the turn cells of a sound table, after those of the rows.
fn write_turns(rows: &[Row], out: &mut [u32])
    requires { Room rows.now out.old }
    ensures { out.new ≡ placed out.old (turn_place (length rows.now) 1) (turns_part rows.now) }
{
    let n = rows.len();
    for k in 1..n {
        out[turn_place(n, k)] = whole(upper(WordKind::Turn, k), rows[k].turn);
    }
}

// Writes the image of a sound table into the first words of `out`, and no others. For crates that
// know the table to be sound and the room to suffice.
pub fn write_cells(rows: &[Row], out: &mut [u32])
    requires { Room rows.now out.old }
    ensures { out.new ≡ placed out.old 0 (image_of rows.now) }
{
    out[0] = machine::HEADER + rows.len() as u32;
    write_rows(rows, out);
    write_turns(rows, out);
    write_counts(rows, out);
}

// Writes the image of a table into the first words of `out`, and no others: 6 or 7 for a table that
// is not sound, then 13 where `out` is too short; these leave it as it was.
pub fn write(rows: &[Row], out: &mut [u32]) -> Result<(), Refusal>
    ensures { Writes rows.now out.old out.new result }
{
    check(rows)?;
    if out.len() < image_words(rows.len()) {
        return Err(Refusal::TooFewLent);
    }
    write_cells(rows, out);
    Ok(())
}
