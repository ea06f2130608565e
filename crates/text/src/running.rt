// The lines of a run.
ghost use Rattle.std.specs.Prelude.{◌≡◌, ◌≤◌, length};
ghost use Rattle.machine.specs.Tables.{row, table_refusal};
ghost use Rattle.machine.specs.Runs.{carried, limit};
ghost use Rattle.machine.specs.Bytes.{words_in};
ghost use Rattle.machine.specs.Text.{run_lines};
ghost use Rattle.text.specs.Running.{Carries, Counted, Taken};

use crate::lines::{TakenWord, put_done, put_stop, put_taken};
use crate::sinks::Sink;
use machine::{Event, Memory, Refusal, Row};
use octets::{Octets, Words};
use steps::system::System;

// The location of process p; 0 where there is no such process.
fn location_at(rows: &[Row], p: u16) -> u16
    ensures { result ≡ (row rows.now p).location }
{
    match rows.get(p as usize) {
        Some(r) => r.location,
        None => 0,
    }
}

// How many processes are at 30 after an accepted word, from how many were before it.
fn carried(event: Event, inside: u16) -> u16
    requires { Carries event inside }
    ensures { result ≡ carried event inside }
{
    match event {
        Event::Arrival => inside + 1,
        Event::Departure => inside - 1,
        Event::Quiet | Event::Come => inside,
    }
}

// The step of a word, which is the word at `place`, where `inside` processes are at 30: what the line
// of the word tells; or the refusal.
#[inline(always)]
fn take(system: &mut System, inside: u16, place: u32, word: u32) -> Result<TakenWord, Refusal>
    requires { Counted system.old inside }
    ensures { Taken system.old place word system.new result }
{
    let process = words::process_of(word);
    let from = location_at(system.rows(), process);
    let told = system.advance(word)?;
    Ok(TakenWord {
        place,
        process,
        from,
        to: location_at(system.rows(), process),
        inside: carried(told.event, inside),
        cell: told.cell,
    })
}

// A line for each word that `events` hold up to the first that is refused, and the last line.
pub(crate) fn put_run<S: Sink>(out: S, rows: &mut [Row], events: &[u8]) -> S
    requires sound { table_refusal rows.old ≡ 0 }
    requires few { length (words_in events.now) ≤ limit }
    requires room { length (run_lines rows.old 0 (words_in events.now)) ≤ S.space out }
    ensures { S.appended out (run_lines rows.old 0 (words_in events.now)) result }
{
    let words = Octets { bytes: events };
    let n = words.count() as u32;
    let mut inside = census::critical(rows);
    let mut system = System::new(rows, Memory::WEAKEST);
    let mut out = out;
    for i in 0..n {
        match take(&mut system, inside, i, words.word(i as usize)) {
            Ok(taken) => {
                inside = taken.inside;
                out = put_taken(out, taken);
            }
            Err(refusal) => return put_stop(out, i, refusal),
        }
    }
    put_done(out, n)
}
