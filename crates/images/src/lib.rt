// Images: a table as 32-bit words, read and written. machine/specs/Images.antt says what each means.
#![tactic(auto)]

pub mod sizes; // how many words, and where they stand
mod halves; // the two halves of a word
mod image; // an image that is being read
mod checks; // the check of one word, of the words of a row
mod counts; // the words with passes
pub mod decoding; // words into rows
pub mod encoding; // rows into words
pub mod reading; // words into a whole new table

// The kinds of word, by their numbers in bits 31 to 28: location with act, bb and level; three sets;
// turn; passes.
#[derive(Clone, Copy, Debug, PartialEq, Eq)]
pub enum WordKind {
    State = 9,
    Est = 10,
    Lis = 11,
    Ahead = 12,
    Turn = 13,
    Passes = 14,
}
