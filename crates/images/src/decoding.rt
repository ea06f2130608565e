// Reading an image: row by row its four words in order, then the words of the turn cells, then those with
// passes, where it is not bare.
ghost use Rattle.std.specs.Prelude.{◌≡◌, ◌-◌, ◌≤◌, ◌<◌, length, drop};
ghost use Rattle.machine.specs.Images.{row_place, turn_place, turn_slots, code_in};
ghost use Rattle.machine.specs.Images.{first_refusal, found_in};
ghost use Rattle.images.specs.Answers.{ReadInto};
ghost use Rattle.images.specs.RowWords.{four_at, row_of_words};
ghost use Rattle.images.specs.Inner.{turn_of_words, RowRead, RowsRead, WordsRead};

use crate::checks::{RowWords, placed};
use crate::counts::Passes;
use crate::image::Image;
use crate::sizes::{row_place, turn_place};
use machine::{ImageError, Row};
use rows::codes::location_of;

// The row that the four words of a process, its turn cell and its passes hold.
fn row_of(w: RowWords, turn: u16, passes: [u16; 16]) -> Row
    requires { code_in w.state < 8 }
    ensures { result ≡ row_of_words w turn passes }
{
    Row {
        location: location_of(((w.state >> 12) % 16) as u16),
        act: ((w.state >> 9) % 2) as u16,
        bb: ((w.state >> 8) % 2) as u16,
        level: (w.state % 256) as u16,
        est: (w.est % 65536) as u16,
        lis: (w.lis % 65536) as u16,
        ahead: (w.ahead % 65536) as u16,
        turn,
        passes,
    }
}

impl<'a> Image<'a> {
    // What turn[q] holds by its word; 0 for q = 0, which has none.
    fn turn(&self, q: usize) -> u16
        requires { q < self.now.size }
        ensures { result ≡ turn_of_words self.now.words.now self.now.size q }
    {
        if q == 0 {
            return 0;
        }
        (self.words[turn_place(self.size, q)] % 256) as u16
    }

    // The four words of process q.
    fn row_words(&self, q: usize) -> RowWords
        requires { q < self.now.size }
        ensures { result ≡ four_at self.now.words.now (row_place q) }
    {
        let i = row_place(q);
        RowWords {
            state: self.words[i],
            est: self.words[i + 1],
            lis: self.words[i + 2],
            ahead: self.words[i + 3],
        }
    }

    // The words of process q are checked, and where they pass the row becomes the one that they hold.
    // Answers whether the words with its passes fit.
    fn read_row(&self, q: usize, row: &mut Row) -> Result<bool, ImageError>
        requires { q < self.now.size }
        ensures { RowRead self.now.words.now self.now.size self.now.counted q row.new result }
    {
        let w = self.row_words(q);
        self.check_row(q, w)?;
        let Passes { list, fit } = self.passes(q);
        *row = row_of(w, self.turn(q), list);
        Ok(fit)
    }

    // All rows in order, up to the first refusal. Answers whether all words with passes fit.
    fn read_rows(&self, rows: &mut [Row]) -> Result<bool, ImageError>
        requires { self.now.size ≤ length rows.old }
        ensures { RowsRead self.now.words.now self.now.size self.now.counted rows.old rows.new result }
    {
        let mut fit = true;
        for q in 0..self.size {
            fit &= self.read_row(q, &mut rows[q])?;
        }
        Ok(fit)
    }

    // The words of the turn cells in order, up to the first refusal.
    fn check_turns(&self) -> Result<(), ImageError>
        ensures { found_in result ≡ first_refusal self.now.size (turn_place self.now.size 1)
            (turn_slots 1 (self.now.size - 1))
            (drop (turn_place self.now.size 1) self.now.words.now) }
    {
        for k in 1..self.size {
            let i = turn_place(self.size, k);
            placed(self.check_turn(k, self.words[i]), i)?;
        }
        Ok(())
    }

    // All words past the header in order, up to the first refusal. Words with passes that fit need not be
    // checked one by one, and none are in a bare image.
    fn read(&self, rows: &mut [Row]) -> Result<(), ImageError>
        requires { self.now.size ≤ length rows.old }
        ensures { WordsRead self.now.words.now self.now.size self.now.counted rows.old rows.new result }
    {
        let fit = self.read_rows(rows)?;
        self.check_turns()?;
        if fit {
            return Ok(());
        }
        self.check_counts()
    }
}

// Reads an image into the first rows: how many, or the refusal with its place. For crates that have rows
// for 16 processes; after a refusal nothing is said of the rows.
pub fn read_cells(words: &[u32], rows: &mut [Row]) -> Result<usize, ImageError>
    requires { length rows.old ≡ 16 }
    ensures { ReadInto words.now rows.old rows.new result }
{
    let image = Image::open(words)?;
    image.read(rows)?;
    Ok(image.size)
}
