// GO of a process: what it does to the table at each location, and what it tells. Each function
// gathers the row that it changes: a row that several locations share is kept on the stack and read
// back, and is slower.
//
// Rows and process stay two parameters: a struct that holds the rows would name their borrow in each clause, where
// `Ready` says in one word what a move needs, and the table is not sound again before the move is done.
ghost use Rattle.std.specs.Prelude.{eqb, ◌≡◌};
ghost use Rattle.machine.specs.Words.{GO};
ghost use Rattle.machine.specs.Settings.{settings_of, turn_number, one_writer, go_forbidden};
ghost use Rattle.steps.specs.Moves.{Ready, At, Goes, Takes, TakesUnder};

use machine::{ActMemory, Event, Memory, Refusal, Row, Settings, Told, TurnMemory};
use tables::{competitors, forget, has_writer};

// GO at 20: to 21, where process p competes; or 15, where it has passed one of those that compete
// 65,535 times.
#[inline(always)]
fn enter(rows: &mut [Row], p: u16) -> Result<Told, Refusal>
    requires { At rows.old p 20 }
    ensures { Takes rows.old GO p 0 rows.new result }
{
    let n = rows.len() as u16;
    let c = competitors(rows);
    let r = rows[p as usize];
    if !rows::passes::raisable(c, r.passes) {
        return Err(Refusal::PassesFull);
    }
    rows[p as usize] = rows::moves::entered(n, p, c, r);
    Ok(Told::act_written(p))
}

// GO at 21: to 22, or at level 0 into the critical section.
fn start_scan(rows: &mut [Row], p: u16) -> Told
    requires { At rows.old p 21 }
    ensures { Goes rows.old p rows.new result }
{
    let r = rows[p as usize];
    rows[p as usize] = rows::moves::started(r);
    if r.level == 0 {
        return Told::QUIET.with_event(Event::Arrival);
    }
    Told::QUIET
}

// GO at 22: to 23.
fn end_scan(rows: &mut [Row], p: u16) -> Told
    requires { At rows.old p 22 }
    ensures { Goes rows.old p rows.new result }
{
    rows[p as usize].location = 23;
    Told::QUIET
}

// GO at 23: what est, bb and the turn cell of its level say, where est and bb ask for that cell.
fn reconsider(rows: &mut [Row], p: u16) -> Told
    requires { At rows.old p 23 }
    ensures { Goes rows.old p rows.new result }
{
    let r = rows[p as usize];
    let v = rows[r.level as usize].turn;
    rows[p as usize] = rows::moves::reconsidered(p, v, r);
    if rows::moves::asks_turn(&r) {
        return Told::turn_read(r.level);
    }
    Told::QUIET
}

// Whether the settings forbid GO of process p: it goes from 23 to 24, while another process at 24 has
// its level. Process p itself is at 23 then.
fn go_forbidden(rows: &[Row], p: u16, memory: Memory) -> bool
    requires { Ready rows.now p }
    ensures { result ≡ go_forbidden (settings_of memory) rows.now p }
{
    if memory.turn != TurnMemory::OneWriter {
        return false;
    }
    let r = &rows[p as usize];
    if !rows::settings::to_push(r) {
        return false;
    }
    has_writer(rows, r.level)
}

// GO at 23 under settings: 17, or what it does without them. It is the only GO that settings look at,
// so that the others cost what they cost without settings.
fn reconsider_under(rows: &mut [Row], p: u16, memory: Memory) -> Result<Told, Refusal>
    requires { At rows.old p 23 }
    ensures { TakesUnder (settings_of memory) rows.old GO p 0 rows.new result }
{
    if go_forbidden(rows, p, memory) {
        return Err(Refusal::SecondWriter);
    }
    Ok(reconsider(rows, p))
}

// GO at 24. The turn cell is written after the row of p, for it may stand in that row.
fn push(rows: &mut [Row], p: u16) -> Told
    requires { At rows.old p 24 }
    ensures { Goes rows.old p rows.new result }
{
    let n = rows.len() as u16;
    let c = competitors(rows);
    let r = rows[p as usize];
    rows[p as usize] = rows::moves::pushed(n, p, c, r);
    rows[r.level as usize].turn = p;
    Told::turn_written(r.level)
}

// GO at 30: out of the critical section, and out of every ahead set and every count of passes.
fn leave(rows: &mut [Row], p: u16) -> Told
    requires { At rows.old p 30 }
    ensures { Goes rows.old p rows.new result }
{
    rows[p as usize].location = 40;
    forget(rows, p);
    Told::QUIET.with_event(Event::Departure)
}

// GO at 40: back to 10.
fn rest(rows: &mut [Row], p: u16) -> Told
    requires { At rows.old p 40 }
    ensures { Goes rows.old p rows.new result }
{
    let r = rows[p as usize];
    rows[p as usize] = rows::moves::left(r);
    Told::act_written(p)
}

// GO of process p: what it tells, or 10, 15 or 17. Where GO is not allowed is what
// is left for the last arm: 10, and 22 while lis is not empty. 22 is asked for before the choice,
// with lis, so that the processor foresees the choice better.
#[inline(always)]
#[tactic(auto, using(crate::proofs::ReadLaws::read_at))]
pub fn go_under(rows: &mut [Row], p: u16, memory: Memory) -> Result<Told, Refusal>
    requires { Ready rows.old p }
    ensures { TakesUnder (settings_of memory) rows.old GO p 0 rows.new result }
{
    let r = &rows[p as usize];
    let l = r.location;
    if (l == 22) & (r.lis == 0) {
        return Ok(end_scan(rows, p));
    }
    match l {
        20 => enter(rows, p),
        21 => Ok(start_scan(rows, p)),
        23 => reconsider_under(rows, p, memory),
        24 => Ok(push(rows, p)),
        30 => Ok(leave(rows, p)),
        40 => Ok(rest(rows, p)),
        _ => Err(Refusal::NotAllowed),
    }
}

// What settings of any numbers say of turn to GO: whether it has one writer.
fn turn_for_go(settings: Settings) -> TurnMemory
    ensures { eqb (turn_number result) one_writer ≡ eqb settings.turn one_writer }
{
    if settings.turn == 1 {
        TurnMemory::OneWriter
    } else {
        TurnMemory::WriteSafe
    }
}

// GO of process p under settings of any numbers.
pub fn go(rows: &mut [Row], p: u16, settings: Settings) -> Result<Told, Refusal>
    requires { Ready rows.old p }
    ensures { TakesUnder settings rows.old GO p 0 rows.new result }
{
    let turn = turn_for_go(settings);
    let act = ActMemory::Safe;
    go_under(rows, p, Memory { act, turn })
}
