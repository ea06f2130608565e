// The two halves of a word: the upper one has its kind and number, the lower one its fields.
ghost use Rattle.std.specs.Prelude.{◌≡◌, ◌+◌, ◌*◌, ◌^◌, ◌<◌};
ghost use Rattle.machine.specs.Images.{PASSES};
ghost use Rattle.images.specs.Kinds.{word_kind};

use crate::WordKind;

// The upper half of a word of a kind, with the number of a process or the k of turn[k].
pub(crate) fn upper(kind: WordKind, number: usize) -> u32
    requires { number < 16 }
    ensures { result ≡ word_kind kind * 2 ^ 12 + number }
{
    (kind as u32) * 4096 + number as u32
}

// The upper half of a word with passes of q, less the process that they are over.
pub(crate) fn passes_upper(q: usize) -> u32
    requires { q < 16 }
    ensures { result ≡ PASSES * 2 ^ 12 + q * 2 ^ 8 }
{
    (WordKind::Passes as u32) * 4096 + (q as u32) * 256
}

// The word of an upper and a lower half.
pub(crate) fn whole(upper: u32, lower: u16) -> u32
    requires { upper < 2 ^ 16 }
    ensures { result ≡ upper * 2 ^ 16 + lower }
{
    upper * 65536 + lower as u32
}
