// What C calls (include/zaguypo.h): each function under its C name, over the one of the same name in the
// library that does the work, with the same clauses. A row has the layout of the row struct that the
// header declares.
#![tactic(auto)]

ghost use Rattle.std.specs.Prelude.{◌≡◌};
ghost use Rattle.machine.specs.Census.{census_of};
ghost use Rattle.machine.specs.Images.{written_of};
ghost use Rattle.machine.specs.Calls.{call_of};
ghost use Rattle.machine.specs.Exports.{parts_answer_of, word_answer_of, fresh_in, read_in, printed_in};
ghost use Rattle.lent.specs.LentStep.{StepsTo};
ghost use Rattle.runs.specs.Outcomes.{RunsTo};
ghost use Rattle.rounds.specs.Promises.{RoundsTo};

use machine::{
    Census, PartsAnswer, Ran, ReadAnswer, RoundsAnswer, Row, StepAnswer, Tally, WordAnswer,
};

// ---- inputs

// The run under settings that the input bytes hold: 256 times the number of words taken plus the refusal
// or 0, and the image of the last table at the start of the lent bytes.
#[unsafe(no_mangle)]
pub extern "C" fn zaguypo_run(input: &[u8], image: &mut [u8], act: u32, turn: u32) -> u64
    ensures { (result ≡ (call_of (record { act = act; turn = turn }) input.now image.old).number)
        × (image.new ≡ (call_of (record { act = act; turn = turn }) input.now image.old).lent) }
{
    zaguypo::zaguypo_run(input, image, act, turn)
}

// The length of the text of the run that the input holds; the text is put at the start of the lent
// bytes where these have room for all of it, and else they are left.
#[unsafe(no_mangle)]
pub extern "C" fn zaguypo_print(input: &[u8], text: &mut [u8]) -> usize
    ensures { (result ≡ (printed_in input.now text.old).number)
        × (text.new ≡ (printed_in input.now text.old).lent) }
{
    exports::zaguypo_print(input, text)
}

// ---- tables of rows

// The lent rows become the fresh table of that many processes; 6 for other than 2 to 16, which are
// left as they are.
#[unsafe(no_mangle)]
pub extern "C" fn zaguypo_fresh(rows: &mut [Row]) -> u16
    ensures { (result ≡ (fresh_in rows.old).refusal)
        × (rows.new ≡ (fresh_in rows.old).rows) }
{
    exports::zaguypo_fresh(rows)
}

// A step of the lent rows by a word under settings: the refusal or 0, and the shared cell that the
// word used. A refused word changes no row and uses no cell.
#[unsafe(no_mangle)]
pub extern "C" fn zaguypo_step(rows: &mut [Row], word: u32, act: u32, turn: u32) -> StepAnswer
    ensures { StepsTo (record { act = act; turn = turn }) word result rows.old rows.new }
{
    lent::zaguypo_step(rows, word, act, turn)
}

// A run of the lent rows by the words under settings: how many were taken, the refusal or 0, and the
// shared cell of the last word taken. Each accepted word is counted in the tally, which starts at zero.
#[unsafe(no_mangle)]
pub extern "C" fn zaguypo_run_rows(
    rows: &mut [Row],
    words: &[u32],
    tally: &mut Tally,
    act: u32,
    turn: u32,
) -> Ran
    ensures { RunsTo (record { act = act; turn = turn }) words.now result tally.new rows.old rows.new }
{
    runs::zaguypo_run_rows(rows, words, tally, act, turn)
}

// The census of a table. Its waiting figure counts 21 to 24; up to version 1.1.0 it counted 20 to 24.
#[unsafe(no_mangle)]
pub extern "C" fn zaguypo_census(rows: &[Row]) -> Census
    ensures { result ≡ census_of rows.now }
{
    census::zaguypo_census(rows)
}

// Rounds in the lent rows.
#[unsafe(no_mangle)]
pub extern "C" fn zaguypo_rounds(rows: &mut [Row]) -> RoundsAnswer
    ensures { RoundsTo result rows.old rows.new }
{
    rounds::zaguypo_rounds(rows)
}

// ---- images

// Reads an image into the first of the lent rows: its table, or the refusal 1 to 5 with its place, then
// 13 where the rows are too few; a refusal leaves them.
#[unsafe(no_mangle)]
pub extern "C" fn zaguypo_read(words: &[u32], rows: &mut [Row]) -> ReadAnswer
    ensures { (result ≡ (read_in words.now rows.old).answer)
        × (rows.new ≡ (read_in words.now rows.old).rows) }
{
    exports::zaguypo_read(words, rows)
}

// Writes the image of a table into the first of the lent words: 6, 7, then 13, which leave them.
#[unsafe(no_mangle)]
pub extern "C" fn zaguypo_write(rows: &[Row], words: &mut [u32]) -> u16
    ensures { (result ≡ (written_of rows.now words.old).refusal)
        × (words.new ≡ (written_of rows.now words.old).words) }
{
    exports::zaguypo_write(rows, words)
}

// ---- event words

// Takes a word apart: its parts; or 8, then 9, and no parts.
#[unsafe(no_mangle)]
pub extern "C" fn zaguypo_apart(word: u32) -> PartsAnswer
    ensures { result ≡ parts_answer_of word }
{
    exports::zaguypo_apart(word)
}

// Puts a word together: the word; or 8, then 9, then 11, and no word.
#[unsafe(no_mangle)]
pub extern "C" fn zaguypo_together(kind: u32, process: u32, argument: u32) -> WordAnswer
    ensures { result ≡ word_answer_of kind process argument }
{
    exports::zaguypo_together(kind, process, argument)
}
