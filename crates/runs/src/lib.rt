// Runs of a table in place: a list of words in order, up to the first that is refused, with a tally
// (machine/specs/Runs.antt). specs/Outcomes.antt says what a run ensures.
#![tactic(auto)]

ghost use Rattle.std.specs.Prelude.{◌≡◌};
ghost use Rattle.machine.specs.Refusals.{refusal_in};
ghost use Rattle.machine.specs.Runs.{counted, run_of};
ghost use Rattle.runs.specs.Outcomes.{Runs, RunsTo};
ghost use Rattle.runs.specs.Bounds.{Room, Checked, Runnable, RunsOn};

use machine::{Event, Memory, Ran, Refusal, Row, Settings, SharedCell, Tally, refusal_number};
use octets::Words;
use steps::system::{System, fitting};

// What a run hands back: how many words it took, the refusal or 0, the shared cell of the last of
// them, and the tally.
#[derive(Clone, Copy, Debug, PartialEq, Eq)]
pub struct RunAnswer {
    pub ran: Ran,
    pub tally: Tally,
}

// The tally after an accepted word with an event. Both counts are added to at every word: a case
// for each event would be a jump through a table, which the processor foresees badly.
fn counted(event: Event, tally: Tally) -> Tally
    requires { Room tally }
    ensures { result ≡ counted event tally }
{
    Tally {
        words: tally.words + 1,
        comes: tally.comes + (event == Event::Come) as u32,
        arrivals: tally.arrivals + (event == Event::Arrival) as u32,
    }
}

// The answer of a run that took so many words, the last of which used the cell.
fn answer(taken: u32, ended: Result<(), Refusal>, cell: SharedCell) -> Ran
    ensures { result ≡ record { taken = taken; refusal = refusal_in ended; cell = cell } }
{
    Ran {
        taken,
        refusal: refusal_number(ended) as u32,
        cell,
    }
}

// At most 8,192 words, in order, up to the first that is refused. The lent tally, which is zero at the
// start, counts each accepted word.
pub fn run_words<W: Words>(system: &mut System, words: W, tally: &mut Tally) -> Ran
    requires { Runnable (W.list words) tally.old }
    ensures { RunsOn system.old (W.list words) system.new tally.new result }
{
    let mut cell = SharedCell::NONE;
    for i in 0..words.count() {
        match system.advance(words.word(i)) {
            Ok(told) => {
                *tally = counted(told.event, *tally);
                cell = told.cell;
            }
            Err(refusal) => return answer(tally.words, Err(refusal), cell),
        }
    }
    answer(tally.words, Ok(()), cell)
}

// What refuses a run before any word is taken: 6 or 7 for the table, then 18 for the settings, then 12
// for more than 8,192 words. Else the memory that its steps meet.
fn check_run(rows: &[Row], words: &[u32], settings: Settings) -> Result<Memory, Refusal>
    ensures { Checked settings words.now rows.now result }
{
    let memory = fitting(rows, settings)?;
    if machine::RUN_LIMIT < words.len() {
        return Err(Refusal::TooManyWords);
    }
    Ok(memory)
}

// A run under settings at a table of any size and content. It is refused, and no row is changed; or
// it takes the words in order up to the first that is refused. The lent tally is set to zero,
// whatever it held, and counts each accepted word.
fn run_counted(rows: &mut [Row], words: &[u32], tally: &mut Tally, settings: Settings) -> Ran
    ensures { RunsTo settings words.now result tally.new rows.old rows.new }
{
    *tally = Tally::ZERO;
    match check_run(rows, words, settings) {
        Ok(memory) => run_words(&mut System::new(rows, memory), words, tally),
        Err(refusal) => answer(0, Err(refusal), SharedCell::NONE),
    }
}

// A run with a tally of its own.
pub fn run(rows: &mut [Row], words: &[u32], settings: Settings) -> RunAnswer
    ensures { Runs rows.old (run_of settings rows.old words.now) rows.new result }
{
    let mut tally = Tally::ZERO;
    let ran = run_counted(rows, words, &mut tally, settings);
    RunAnswer { ran, tally }
}

// A run of the lent rows by the words under settings, for C (include/zaguypo.h): how many were
// taken, the refusal or 0, and the shared cell of the last word taken. The rows are left as the
// taken words make them.
pub fn zaguypo_run_rows(
    rows: &mut [Row],
    words: &[u32],
    tally: &mut Tally,
    act: u32,
    turn: u32,
) -> Ran
    ensures { RunsTo (record { act = act; turn = turn }) words.now result tally.new rows.old rows.new }
{
    run_counted(rows, words, tally, Settings { act, turn })
}
