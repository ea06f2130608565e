// What C calls beside step, run, census, rounds and the call on bytes: event words, fresh tables, images,
// the printed run (include/zaguypo.h). Each is a thin function over the one that does the work, and
// answers in the numbers that the header declares.
#![tactic(auto)]

ghost use Rattle.std.specs.Prelude.{◌≡◌};
ghost use Rattle.machine.specs.Images.{written_of};
ghost use Rattle.machine.specs.Exports.{parts_answer_of, word_answer_of, fresh_in, read_in, printed_in};

use machine::{MOST_PROCESSES, PartsAnswer, ReadAnswer, Refusal, Row, WordAnswer, refusal_number};

// ---- event words

// Takes a word apart: its parts; or 8, then 9, and no parts.
pub fn zaguypo_apart(word: u32) -> PartsAnswer
    ensures { result ≡ parts_answer_of word }
{
    match words::take_apart(word) {
        Ok(parts) => PartsAnswer {
            refusal: 0,
            kind: parts.kind as u16,
            process: parts.process,
            argument: parts.argument,
        },
        Err(refusal) => PartsAnswer {
            refusal: refusal.into(),
            kind: 0,
            process: 0,
            argument: 0,
        },
    }
}

// Puts a word together: the word; or 8, then 9, then 11, and no word.
pub fn zaguypo_together(kind: u32, process: u32, argument: u32) -> WordAnswer
    ensures { result ≡ word_answer_of kind process argument }
{
    match words::put_together(kind, process, argument) {
        Ok(word) => WordAnswer { refusal: 0, word },
        Err(refusal) => WordAnswer {
            refusal: u16::from(refusal) as u32,
            word: 0,
        },
    }
}

// ---- tables

// The lent rows become the fresh table of that many processes; 6 for other than 2 to 16, which are
// left as they are.
pub fn zaguypo_fresh(rows: &mut [Row]) -> u16
    ensures { (result ≡ (fresh_in rows.old).refusal)
        × (rows.new ≡ (fresh_in rows.old).rows) }
{
    let n = rows.len();
    if (n < 2) | (MOST_PROCESSES < n) {
        return Refusal::WrongSize.into();
    }
    rows.fill(Row::IDLE);
    0
}

// ---- images

// Reads an image into the first of the lent rows: its table, or the refusal 1 to 5 with its place, then
// 13 where the rows are too few; a refusal leaves them.
pub fn zaguypo_read(words: &[u32], rows: &mut [Row]) -> ReadAnswer
    ensures { (result ≡ (read_in words.now rows.old).answer)
        × (rows.new ≡ (read_in words.now rows.old).rows) }
{
    let mut table = [Row::BLANK; MOST_PROCESSES];
    match images::decoding::read_cells(words, &mut table) {
        Ok(size) if size <= rows.len() => {
            rows[..size].copy_from_slice(&table[..size]);
            ReadAnswer {
                refusal: 0,
                place: 0,
                size: size as u16,
            }
        }
        Ok(_) => ReadAnswer {
            refusal: Refusal::TooFewLent.into(),
            place: 0,
            size: 0,
        },
        Err(error) => ReadAnswer {
            refusal: error.refusal.into(),
            place: error.place,
            size: 0,
        },
    }
}

// Writes the image of a table into the first of the lent words: 6, 7, then 13, which leave them.
pub fn zaguypo_write(rows: &[Row], words: &mut [u32]) -> u16
    ensures { (result ≡ (written_of rows.now words.old).refusal)
        × (words.new ≡ (written_of rows.now words.old).words) }
{
    refusal_number(images::encoding::write(rows, words))
}

// ---- the printed run

// The length of the text of the run that the input holds; the text is put at the start of the lent
// bytes where these have room for all of it, and else they are left.
pub fn zaguypo_print(input: &[u8], text: &mut [u8]) -> usize
    ensures { (result ≡ (printed_in input.now text.old).number)
        × (text.new ≡ (printed_in input.now text.old).lent) }
{
    text::print_run(input, text)
}
