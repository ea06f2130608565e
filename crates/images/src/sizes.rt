// How many words an image has, and where they stand (machine/specs/Images.antt).
ghost use Rattle.std.specs.Prelude.{◌≡◌, ◌^◌, ◌<◌};
ghost use Rattle.machine.specs.Images.{bare_length, image_length, length_in};
ghost use Rattle.machine.specs.Images.{row_place, turn_place, pass_place};

use machine::{BARE_HEADER, HEADER};

// How many words the bare image of n processes has.
fn bare_words(n: usize) -> usize
    requires { n < 2 ^ 31 }
    ensures { result ≡ bare_length n }
{
    5 * n
}

// How many words the image of n processes has.
pub fn image_words(n: usize) -> usize
    requires { n < 2 ^ 31 }
    ensures { result ≡ image_length n }
{
    bare_words(n) + n * n
}

// How many words there are by a first word, of either form.
pub fn words_by(head: u32) -> usize
    ensures { result ≡ length_in head }
{
    if HEADER <= head {
        return image_words((head - HEADER) as usize);
    }
    if head < BARE_HEADER {
        return 0;
    }
    bare_words((head - BARE_HEADER) as usize)
}

// Where the first of the four words of process q stands.
pub(crate) fn row_place(q: usize) -> usize
    requires { q < 16 }
    ensures { result ≡ row_place q }
{
    4 * q + 1
}

// Where the word of turn[k] stands in an image of n processes.
pub(crate) fn turn_place(n: usize, k: usize) -> usize
    requires { (n < 17) × (k < n) }
    ensures { result ≡ turn_place n k }
{
    4 * n + k
}

// Where the first word of the passes of process q stands in an image of n processes.
pub(crate) fn pass_place(n: usize, q: usize) -> usize
    requires { (n < 17) × (q < n) }
    ensures { result ≡ pass_place n q 0 }
{
    bare_words(n) + n * q
}
