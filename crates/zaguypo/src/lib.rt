// The run as C calls it: input bytes in, the last image out in lent bytes (include/zaguypo.h).
#![tactic(auto)]

ghost use Rattle.std.specs.Prelude.{◌≡◌};
ghost use Rattle.counting.specs.Placing.{placed};
ghost use Rattle.machine.specs.Refusals.{number};
ghost use Rattle.machine.specs.Images.{image_of};
ghost use Rattle.machine.specs.Bytes.{words_in, bytes_of};
ghost use Rattle.machine.specs.Inputs.Input.{Ready};
ghost use Rattle.machine.specs.Calls.{call_for, call_of};
ghost use Rattle.zaguypo.specs.Calls.{CallsTo, Holds, Writable, Packable, Prepared, refusal_for};

use images::encoding::write_cells;
use images::sizes::image_words;
use inputs::{Input, InputError};
use machine::{Memory, Refusal, Row, Settings, Tally};
use octets::Octets;
use runs::run_words;
use steps::system::System;

// Room for a short image: that of five processes has 50 words, the longest 336.
const FEW: usize = 64;

// The image of the table, at the start of the lent bytes, by way of N words that have room for it.
fn pack_image<const N: usize>(rows: &[Row], image: &mut [u8])
    requires { Packable N rows.now image.old }
    ensures { image.new ≡ placed image.old 0 (bytes_of (image_of rows.now)) }
{
    let mut words = [0u32; N];
    write_cells(rows, &mut words);
    octets::pack(&words[..image_words(rows.len())], image);
}

// The same for a table of any size; few processes have few words, which are sooner cleared.
fn write_image(rows: &[Row], image: &mut [u8])
    requires { Writable rows.now image.old }
    ensures { image.new ≡ placed image.old 0 (bytes_of (image_of rows.now)) }
{
    if rows.len() <= 5 {
        pack_image::<FEW>(rows, image)
    } else {
        pack_image::<{ machine::IMAGE_WORDS }>(rows, image)
    }
}

// What refuses a call whose input is refused: 14, 1 to 5, or 12, before which 18 comes.
fn refusal_for(error: InputError, settings: Settings) -> Refusal
    ensures { number result ≡ refusal_for error settings }
{
    match error {
        InputError::BadBytes => Refusal::BadBytes,
        InputError::BadImage(error) => error.refusal,
        InputError::TooMany { size: _ } => match Memory::try_from(settings) {
            Ok(_) => Refusal::TooManyWords,
            Err(refusal) => refusal,
        },
    }
}

// The run of the event words under settings from a table: 18, 13, or its number. What else the run tells is
// dropped here, so that a word pays nothing for it.
fn run_table(
    rows: &mut [Row],
    events: &[u8],
    image: &mut [u8],
    settings: Settings,
) -> Result<u64, Refusal>
    requires { Prepared rows.old (words_in events.now) }
    ensures { CallsTo (call_for settings (Ready rows.old (words_in events.now)) image.old) image.new result }
{
    let memory = Memory::try_from(settings)?;
    if image.len() < 4 * image_words(rows.len()) {
        return Err(Refusal::TooFewLent);
    }
    let mut tally = Tally::ZERO;
    let ran = run_words(
        &mut System::new(rows, memory),
        Octets { bytes: events },
        &mut tally,
    );
    write_image(rows, image);
    Ok(256 * (ran.taken as u64) + ran.refusal as u64)
}

// The call under settings for what the input bytes hold. The words of their image are put into an array
// of N words.
fn run_input<const N: usize>(
    input: &[u8],
    image: &mut [u8],
    settings: Settings,
) -> Result<u64, Refusal>
    requires { Holds N input.now }
    ensures { CallsTo (call_of settings input.now image.old) image.new result }
{
    let mut words = [0u32; N];
    let mut rows = [Row::BLANK; machine::MOST_PROCESSES];
    match inputs::open_input(input, &mut words, &mut rows) {
        Ok(Input { size, events }) => run_table(&mut rows[..size], events, image, settings),
        Err(error) => Err(refusal_for(error, settings)),
    }
}

// The run under settings that the input bytes hold, an image and then event words, lowest byte first.
// Answers 256 times the number of words taken plus the refusal or 0, and leaves the image of the last
// table at the start of the lent bytes, 4 × (5N + N × N). Refusals 14, 1 to 5, 18, 12 and 13 leave the
// lent bytes as given. A short image has its own room for words, which is sooner cleared.
pub fn zaguypo_run(input: &[u8], image: &mut [u8], act: u32, turn: u32) -> u64
    ensures { (result ≡ (call_of (record { act = act; turn = turn }) input.now image.old).number)
        × (image.new ≡ (call_of (record { act = act; turn = turn }) input.now image.old).lent) }
{
    let settings = Settings { act, turn };
    let answer = if inputs::image_length(input) <= FEW {
        run_input::<FEW>(input, image, settings)
    } else {
        run_input::<{ machine::IMAGE_WORDS }>(input, image, settings)
    };
    match answer {
        Ok(number) => number,
        Err(refusal) => u16::from(refusal) as u64,
    }
}
