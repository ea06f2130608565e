// An image that is being read: its words, and what the first of them says.
ghost use Rattle.std.specs.Prelude.{◌≡◌, Some, None, cond};
ghost use Rattle.machine.specs.Images.{is_header, size_in};
ghost use Rattle.rows.specs.Bounds.{Full};
ghost use Rattle.images.specs.Inner.{Sized};

use crate::sizes::words_by;
use machine::{BARE_HEADER, HEADER, ImageError, Refusal};

// As many words as the first of them says: `size` is how many processes it names, `full` the set of all
// of them, and `counted` whether there are words with passes.
#[derive(Clone, Copy)]
pub(crate) struct Image<'a> {
    pub(crate) words: &'a [u32],
    pub(crate) size: usize,
    pub(crate) full: u16,
    pub(crate) counted: bool,
    ghost sized: { Sized words.now size counted },
    ghost is_full: { Full size full },
}

// How many processes a first word names; none where it is no header, of either form.
fn size_in(head: u32) -> Option<usize>
    ensures { result ≡ cond (is_header head) (Some (size_in head)) None }
{
    if (HEADER + 2 <= head) & (head <= HEADER + 16) {
        return Some((head - HEADER) as usize);
    }
    if (BARE_HEADER + 2 <= head) & (head <= BARE_HEADER + 16) {
        return Some((head - BARE_HEADER) as usize);
    }
    None
}

impl<'a> Image<'a> {
    ghost use Rattle.images.specs.Opened.{Opens};

    // The image that the words are: 1 where the first is no header, then 2 where there are more or fewer
    // than it says.
    pub(crate) fn open(words: &'a [u32]) -> Result<Image<'a>, ImageError>
        ensures { Opens words.now result }
    {
        let head = words.first().copied().unwrap_or(0);
        let Some(size) = size_in(head) else {
            return Err(ImageError {
                refusal: Refusal::NoHeader,
                place: 0,
            });
        };
        let all = words_by(head);
        if words.len() != all {
            return Err(ImageError {
                refusal: Refusal::WrongLength,
                place: words.len().min(all) as u16,
            });
        }
        Ok(Image {
            words,
            size,
            full: rows::sound::full_set(size as u16),
            counted: HEADER <= head,
        })
    }
}
