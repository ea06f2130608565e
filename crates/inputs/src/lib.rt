// An input is opened here and nowhere else: the words of its image into rows
// (machine/specs/Inputs.antt).
#![tactic(auto)]

ghost use Rattle.std.specs.Prelude.{◌≡◌, IfOk};
ghost use Rattle.machine.specs.Bytes.{words_in};
ghost use Rattle.inputs.specs.Splitting.{Splits};
ghost use Rattle.inputs.specs.Opening.{Openable, Opens, EventsOf};

use images::decoding::read_cells;
use images::sizes::words_by;
use machine::{ImageError, Refusal, Row};

// Why an input holds no table with event words for it. Of too many event words, their table has `size`
// processes.
#[derive(Clone, Copy, Debug, PartialEq, Eq)]
pub enum InputError {
    BadBytes,
    BadImage(ImageError),
    TooMany { size: usize },
}

impl From<ImageError> for InputError {
    ghost use Rattle.inputs.specs.declared.InputError.TheVariants.{BadImage};

    ghost from_gives = { λ e r. r ≡ BadImage e };

    fn from(error: ImageError) -> InputError {
        InputError::BadImage(error)
    }
}

// What an input holds: how many processes its table has, and its event words as bytes, which are a part
// of the input.
#[derive(Clone, Copy)]
pub struct Input<'a> {
    pub size: usize,
    pub events: &'a [u8],
}

// How many words of an input are its image: as many as its first word says, or all if fewer. The
// event words stand after them.
pub fn image_length(input: &[u8]) -> usize
    ensures { Splits (words_in input.now) result }
{
    let len = input.len() / 4;
    if len == 0 {
        return 0;
    }
    words_by(octets::word_at(input, 0)).min(len)
}

// What the bytes of an input hold; its table is put into the first rows. The words of its image are put
// at the start of `words`, those of its events nowhere: they are read one by one as the run comes
// to them, so that a run that ends early has not read the others. Where the first word asks for
// more words than the longest image has, it is no header.
pub fn open_input<'a>(
    input: &'a [u8],
    words: &mut [u32],
    rows: &mut [Row],
) -> Result<Input<'a>, InputError>
    requires { Openable input.now words.old rows.old }
    ensures shows { Opens input.now rows.new result }
    ensures part { IfOk result (λ o. EventsOf input.now o.events.now) }
{
    if !octets::bytes_fit(input) {
        return Err(InputError::BadBytes);
    }
    let m = image_length(input);
    if m > machine::IMAGE_WORDS {
        return Err(InputError::BadImage(ImageError {
            refusal: Refusal::NoHeader,
            place: 0,
        }));
    }
    let (image, events) = input.split_at(4 * m);
    let _count = octets::unpack(image, words);
    let size = read_cells(&words[..m], rows)?;
    if events.len() / 4 > machine::RUN_LIMIT {
        return Err(InputError::TooMany { size });
    }
    Ok(Input { size, events })
}
