// The printed run, byte for byte (machine/specs/Text.antt says what it is).
#![tactic(auto)]

pub mod sinks; // where printed bytes go
pub mod fields; // numbers and shared cells
pub mod lines; // the lines of a text
pub mod running; // those of a run
pub mod printing; // the text for what an input holds

ghost use Rattle.std.specs.Prelude.{◌≡◌, ◌≤◌, length};
ghost use Rattle.machine.specs.Exports.{printed_in};
ghost use Rattle.text.specs.Pages.{Written, page_space};
ghost use Rattle.text.specs.Printing.{Answers, opened_text};

use inputs::{Input, InputError};
use machine::Row;
use printing::put_text;
use sinks::{Count, Page};
use std::mem;

// The text of an opened input on a page, whose bytes are out of it while they are put. The run changes
// the rows.
fn print_on(page: &mut Page, opened: Result<Input<'_>, InputError>, rows: &mut [Row])
    requires answers { Answers opened rows.old }
    requires room { length (opened_text opened rows.old) ≤ page_space page.old }
    ensures same_bytes { page.new.bytes.ghost_name ≡ page.old.bytes.ghost_name }
    ensures written { Written page.old (opened_text opened.entry rows.old) page.new }
{
    let taken = mem::replace(page, Page::new(&mut []));
    *page = put_text(taken, opened, rows);
}

// The length of the text of the run that the input holds. Where the lent buffer has room for all of
// it, the text is put at its start and the bytes after it are kept; else all are kept. A buffer of
// machine::TEXT_BYTES bytes has room for every text, and nothing is counted.
pub fn print_run(input: &[u8], out: &mut [u8]) -> usize
    ensures { (result ≡ (printed_in input.now out.old).number)
        × (out.new ≡ (printed_in input.now out.old).lent) }
{
    let mut words = [0u32; machine::IMAGE_WORDS];
    let mut rows = [Row::BLANK; machine::MOST_PROCESSES];
    let opened = inputs::open_input(input, &mut words, &mut rows);
    if out.len() < machine::TEXT_BYTES {
        let mut copy = rows;
        let length = put_text(Count::NONE, opened, &mut copy).bytes();
        if out.len() < length {
            return length;
        }
    }
    let mut page = Page::new(out);
    print_on(&mut page, opened, &mut rows);
    page.filled()
}
