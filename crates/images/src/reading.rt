// A whole new table from an image.
ghost use Rattle.std.specs.Prelude.{◌≡◌};
ghost use Rattle.machine.specs.Images.{read_image, image_in};

use crate::decoding::read_cells;
use machine::{ImageError, MOST_PROCESSES, NewTable, Row};

// Reads an image: a whole new table, or the refusal with its place.
pub fn read(words: &[u32]) -> Result<NewTable, ImageError>
    ensures { image_in result ≡ read_image words.now }
{
    let mut rows = [Row::BLANK; MOST_PROCESSES];
    let size = read_cells(words, &mut rows)?;
    Ok(NewTable { size, rows })
}
