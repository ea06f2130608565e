// The words of an image that hold passes: checked, read and written. `q` is the process whose passes they
// are, `r` the one that they are over.
ghost use Rattle.std.specs.Prelude.{◌≡◌, true, cond, ◌+◌, ◌≤◌, ◌<◌, length, drop};
ghost use Rattle.counting.specs.Placing.{placed};
ghost use Rattle.machine.specs.Images.{bare_length, pass_place, pass_slots, first_refusal, passes_in, found_in};
ghost use Rattle.images.specs.Answers.{Room};
ghost use Rattle.images.specs.Inner.{passes_refusal, Fits, pass_words, passes_part};

use crate::checks::placed;
use crate::halves::{passes_upper, whole};
use crate::image::Image;
use crate::sizes::pass_place;
use machine::{ImageError, Row};

// The passes of a process, and whether their words fit: where they do, none of them is refused.
#[derive(Clone, Copy)]
pub(crate) struct Passes {
    pub(crate) list: [u16; 16],
    pub(crate) fit: bool,
}

impl<'a> Image<'a> {
    // The words with passes of q in order, up to the first refusal.
    fn check_passes(&self, q: usize) -> Result<(), ImageError>
        requires counted { self.now.counted ≡ true }
        requires q_in { q < self.now.size }
        ensures { found_in result ≡ passes_refusal self.now.words.now self.now.size q }
    {
        let at = pass_place(self.size, q);
        for r in 0..self.size {
            placed(self.check_count(q, r, self.words[at + r]), at + r)?;
        }
        Ok(())
    }

    // All words with passes in order, up to the first refusal.
    pub(crate) fn check_counts(&self) -> Result<(), ImageError>
        requires { self.now.counted ≡ true }
        ensures { found_in result ≡ first_refusal self.now.size (bare_length self.now.size)
            (pass_slots self.now.size 0 self.now.size)
            (drop (bare_length self.now.size) self.now.words.now) }
    {
        for q in 0..self.size {
            self.check_passes(q)?;
        }
        Ok(())
    }

    // How many words with passes a process has: none in a bare image.
    fn counts(&self) -> usize
        ensures { result ≡ cond self.now.counted self.now.size 0 }
    {
        if self.counted { self.size } else { 0 }
    }

    // The passes of process q by their words, each 0 where there are no such words. The loop has no
    // branch, and the compiler turns it into vector code. It collects the bits in which a word differs
    // from the word for a count of 0, `blank`.
    pub(crate) fn passes(&self, q: usize) -> Passes
        requires { q < self.now.size }
        ensures list_value { result.list ≡ passes_in self.now.size self.now.words.now q }
        ensures fits { Fits self.now.words.now self.now.size q self.now.counted result.fit }
    {
        let mut list = [0u16; 16];
        let at = pass_place(self.size, q);
        let mut odd: u32 = 0;
        let mut blank = whole(passes_upper(q), 0);
        for r in 0..self.counts() {
            let w = self.words[at + r];
            list[r] = (w % 65536) as u16;
            odd |= w ^ blank;
            blank += 65536;
        }
        let fit = (odd >> 16 == 0) & (list[q] == 0);
        Passes { list, fit }
    }
}

// The words with the passes of process q in an image of n processes. The passes are handed in by value:
// a reference could overlap `out` for all that the compiler knows, which costs a check.
fn write_passes(out: &mut [u32], n: usize, q: usize, passes: [u16; 16])
    requires n_bound { (n < 17) × (q < n) }
    requires n_in_bounds { pass_place n q 0 + n ≤ length out.old }
    ensures { out.new ≡ placed out.old (pass_place n q 0) (pass_words n q passes) }
{
    let at = pass_place(n, q);
    let upper = passes_upper(q);
    for r in 0..n {
        out[at + r] = whole(upper + r as u32, passes[r]);
    }
}

// The words with the passes of a sound table, after those of the turn cells.
pub(crate) fn write_counts(rows: &[Row], out: &mut [u32])
    requires { Room rows.now out.old }
    ensures { out.new ≡ placed out.old (bare_length (length rows.now)) (passes_part rows.now) }
{
    for (q, row) in rows.iter().enumerate() {
        write_passes(out, rows.len(), q, row.passes);
    }
}
