// The check of a word of an image where it stands, the word of process `q`, `k` or `r`. The upper half of
// a word, its kind, spare bits and number, is compared at once.
ghost use Rattle.std.specs.Prelude.{◌≡◌, ◌<◌, ◌^◌};
ghost use Rattle.machine.specs.Refusals.{refusal_in};
ghost use Rattle.machine.specs.Images.{slot, pass_slot, STATE, TURN, row_place, row_slots};
ghost use Rattle.machine.specs.Images.{slot_refusal, first_refusal, found_in};
ghost use Rattle.images.specs.Inner.{SetKind, SetsFit, found_at};
ghost use Rattle.images.specs.Kinds.{word_kind};
ghost use Rattle.images.specs.RowWords.{four};

use crate::WordKind;
use crate::halves::{passes_upper, upper};
use crate::image::Image;
use crate::sizes::row_place;
use machine::{ImageError, Refusal};
use rows::codes::location_of;
use rows::sound::location_fits;

// The check of the word that stands at a place.
pub(crate) fn placed(check: Result<(), Refusal>, place: usize) -> Result<(), ImageError>
    requires { place < 2 ^ 16 }
    ensures { found_in result ≡ found_at (refusal_in check) place }
{
    match check {
        Ok(()) => Ok(()),
        Err(refusal) => Err(ImageError {
            refusal,
            place: place as u16,
        }),
    }
}

// The four words of a process.
#[derive(Clone, Copy)]
pub(crate) struct RowWords {
    pub(crate) state: u32,
    pub(crate) est: u32,
    pub(crate) lis: u32,
    pub(crate) ahead: u32,
}

impl<'a> Image<'a> {
    // A word with location, act, bb and level.
    fn check_state(&self, q: usize, w: u32) -> Result<(), Refusal>
        requires { q < self.now.size }
        ensures { refusal_in result ≡ slot_refusal self.now.size (slot STATE q) w }
    {
        if !((w >> 16 == upper(WordKind::State, q)) & ((w >> 10) % 4 == 0)) {
            return Err(Refusal::Malformed);
        }
        let code = ((w >> 12) % 16) as u16;
        let level = (w % 256) as u16;
        if !((code < 8) & ((level as usize) < self.size)) {
            return Err(Refusal::OutOfRange);
        }
        if !location_fits(location_of(code), level) {
            return Err(Refusal::LevelMisfit);
        }
        Ok(())
    }

    // A word of a kind that holds a set.
    fn check_set(&self, kind: WordKind, q: usize, w: u32) -> Result<(), Refusal>
        requires q_in { q < self.now.size }
        requires set_kind { SetKind (word_kind kind) }
        ensures { refusal_in result ≡ slot_refusal self.now.size (slot (word_kind kind) q) w }
    {
        if !(w >> 16 == upper(kind, q)) {
            return Err(Refusal::Malformed);
        }
        if !(w % 65536 <= self.full as u32) {
            return Err(Refusal::OutOfRange);
        }
        Ok(())
    }

    // Where this is true, the three words of process q that hold sets pass. Most do. Otherwise
    // `check_set` is asked of one after the other.
    fn sets_fit(&self, q: usize, w: RowWords) -> bool
        requires { q < self.now.size }
        ensures { SetsFit self.now.size q w.est w.lis w.ahead result }
    {
        let members = (w.est % 65536) | (w.lis % 65536) | (w.ahead % 65536);
        (w.est >> 16 == upper(WordKind::Est, q))
            & (w.lis >> 16 == upper(WordKind::Lis, q))
            & (w.ahead >> 16 == upper(WordKind::Ahead, q))
            & (members <= self.full as u32)
    }

    // The four words of process q in order, up to the first refusal.
    pub(crate) fn check_row(&self, q: usize, w: RowWords) -> Result<(), ImageError>
        requires { q < self.now.size }
        ensures { found_in result ≡ first_refusal self.now.size (row_place q) (row_slots q 1) (four w) }
    {
        let i = row_place(q);
        placed(self.check_state(q, w.state), i)?;
        if self.sets_fit(q, w) {
            return Ok(());
        }
        placed(self.check_set(WordKind::Est, q, w.est), i + 1)?;
        placed(self.check_set(WordKind::Lis, q, w.lis), i + 2)?;
        placed(self.check_set(WordKind::Ahead, q, w.ahead), i + 3)
    }

    // A word that holds turn[k].
    pub(crate) fn check_turn(&self, k: usize, w: u32) -> Result<(), Refusal>
        requires { k < self.now.size }
        ensures { refusal_in result ≡ slot_refusal self.now.size (slot TURN k) w }
    {
        if !((w >> 16 == upper(WordKind::Turn, k)) & ((w >> 8) % 256 == 0)) {
            return Err(Refusal::Malformed);
        }
        if !(((w % 256) as usize) < self.size) {
            return Err(Refusal::OutOfRange);
        }
        Ok(())
    }

    // A word that holds the passes of q over r.
    pub(crate) fn check_count(&self, q: usize, r: usize, w: u32) -> Result<(), Refusal>
        requires q_in { q < self.now.size }
        requires r_in { r < self.now.size }
        ensures { refusal_in result ≡ slot_refusal self.now.size (pass_slot q r) w }
    {
        if !(w >> 16 == passes_upper(q) + r as u32) {
            return Err(Refusal::Malformed);
        }
        if !((q != r) | (w % 65536 == 0)) {
            return Err(Refusal::OutOfRange);
        }
        Ok(())
    }
}
