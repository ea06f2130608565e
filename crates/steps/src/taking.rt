// A word of process p taken, kind by kind: what refuses it at the row of p, and what it does. The
// kind is given to the check as a constant, and the compiler drops the check's questions about
// other kinds. What is told is a constant of each branch.
//
// Rows and process stay two parameters: a struct that holds the rows would name their borrow in each clause, where
// `Ready` says in one word what a move needs, and the table is not sound again before the move is done.
ghost use Rattle.std.specs.Prelude.{◌≡◌, ◌≢◌};
ghost use Rattle.machine.specs.Refusals.{number, refusal_in};
ghost use Rattle.machine.specs.Words.{STAY, COME, FLICKER, GO, LOOK, CANCEL, kind_number};
ghost use Rattle.machine.specs.Settings.{settings_of};
ghost use Rattle.steps.specs.Moves.{row_refusal, Ready, Takes, TakesUnder};

use crate::going::go_under;
use crate::moving::{cancel, come, flicker, look};
use machine::{Kind, Memory, Refusal, Row, Told};
use rows::kinds::{allowed, kind_takes, looks};

// Whether a kind and an argument are allowed at the row of p: else 10, then 11. What is left of a
// refusal: 16, which settings give to FLICKER; 17 and 15, which GO finds where it moves, 17 at 23, and
// 15 at 20, with the competitors that it counts.
fn check_at(rows: &[Row], kind: Kind, p: u16, a: u16) -> Result<(), Refusal>
    requires { Ready rows.now p }
    ensures { refusal_in result ≡ row_refusal rows.now (kind_number kind) p a }
{
    let r = &rows[p as usize];
    let there = allowed(kind, r);
    let fits = kind_takes(rows.len() as u16, kind, r, a);
    if !there {
        return Err(Refusal::NotAllowed);
    }
    if !fits {
        return Err(Refusal::BadArgument);
    }
    Ok(())
}

// What refuses a kind and an argument at the row of p, where something does: 10, or else 11.
fn refusal_at(rows: &[Row], kind: Kind, p: u16, a: u16) -> Refusal
    requires ready { Ready rows.now p }
    requires refused { row_refusal rows.now (kind_number kind) p a ≢ 0 }
    ensures { number result ≡ row_refusal rows.now (kind_number kind) p a }
{
    if allowed(kind, &rows[p as usize]) {
        Refusal::BadArgument
    } else {
        Refusal::NotAllowed
    }
}

// LOOK of process p at `a`.
pub(crate) fn take_look(rows: &mut [Row], p: u16, a: u16) -> Result<Told, Refusal>
    requires { Ready rows.old p }
    ensures { Takes rows.old LOOK p a rows.new result }
{
    if looks(&rows[p as usize], a) {
        return Ok(look(rows, p, a));
    }
    Err(refusal_at(rows, Kind::Look, p, a))
}

// GO of process p. With argument 0 the choice of the location is the check of the place too.
#[inline(always)]
pub(crate) fn take_go(rows: &mut [Row], p: u16, a: u16, memory: Memory) -> Result<Told, Refusal>
    requires { Ready rows.old p }
    ensures { TakesUnder (settings_of memory) rows.old GO p a rows.new result }
{
    if a != 0 {
        return Err(refusal_at(rows, Kind::Go, p, a));
    }
    go_under(rows, p, memory)
}

// FLICKER of process p to `a`.
pub(crate) fn take_flicker(
    rows: &mut [Row],
    p: u16,
    a: u16,
    memory: Memory,
) -> Result<Told, Refusal>
    requires { Ready rows.old p }
    ensures { TakesUnder (settings_of memory) rows.old FLICKER p a rows.new result }
{
    check_at(rows, Kind::Flicker, p, a)?;
    if rows::settings::flicker_forbidden_under(memory, &rows[p as usize]) {
        return Err(Refusal::PlainFlicker);
    }
    Ok(flicker(rows, p, a))
}

// STAY of process p.
pub(crate) fn take_stay(rows: &mut [Row], p: u16, a: u16) -> Result<Told, Refusal>
    requires { Ready rows.old p }
    ensures { Takes rows.old STAY p a rows.new result }
{
    if (rows[p as usize].location == 10) & (a == 0) {
        return Ok(Told::QUIET);
    }
    Err(refusal_at(rows, Kind::Stay, p, a))
}

// COME of process p.
pub(crate) fn take_come(rows: &mut [Row], p: u16, a: u16) -> Result<Told, Refusal>
    requires { Ready rows.old p }
    ensures { Takes rows.old COME p a rows.new result }
{
    check_at(rows, Kind::Come, p, a)?;
    Ok(come(rows, p))
}

// CANCEL of process p.
pub(crate) fn take_cancel(rows: &mut [Row], p: u16, a: u16) -> Result<Told, Refusal>
    requires { Ready rows.old p }
    ensures { Takes rows.old CANCEL p a rows.new result }
{
    check_at(rows, Kind::Cancel, p, a)?;
    Ok(cancel(rows, p))
}
