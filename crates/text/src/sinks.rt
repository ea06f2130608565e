// Where printed bytes go: into a lent buffer, or nowhere, where only their count is wanted. All that prints is
// generic in this.
ghost use Rattle.std.specs.Prelude.{◌≡◌, ◌∷◌, [], ◌≤◌, ℕ, List, length};
ghost use Rattle.text.specs.Laws.{SinkLaws};

pub trait Sink {
    // For how many more bytes there is room.
    ghost space: { Self → ℕ };

    // The bytes of a list were put after those that are there.
    ghost appended: { Self → List ℕ → Self → Type 0 };

    // One byte.
    fn put_byte(self, b: u8) -> Self
        requires { 1 ≤ space self }
        ensures { appended self (b ∷ []) result };

    // The bytes of `s`.
    fn put_bytes(self, s: &[u8]) -> Self
        requires { length s.now ≤ space self }
        ensures { appended self s.now result };

    // What each `impl` must prove.
    ghost laws: { SinkLaws space appended };
}

// A lent buffer, of which the first `filled` bytes are put.
#[derive(Drop)]
pub struct Page<'a> {
    bytes: &'a mut [u8],
    filled: usize,
    ghost within: { filled ≤ length bytes.now },
}

impl<'a> Page<'a> {
    // An empty page.
    pub fn new(bytes: &'a mut [u8]) -> Page<'a>
        ensures same_bytes { result.bytes.ghost_name ≡ bytes.entry.ghost_name }
        ensures bytes { result.bytes.now ≡ bytes.old }
        ensures filled { result.filled ≡ 0 }
    {
        Page { bytes, filled: 0 }
    }

    // How many bytes are put.
    pub fn filled(&self) -> usize
        ensures { result ≡ self.now.filled }
    {
        self.filled
    }
}

impl Sink for Page<'_> {
    ghost use Rattle.text.specs.Pages.{page_space, Written};

    ghost space = { page_space };

    ghost appended = { Written };

    #[inline(always)]
    fn put_byte(self, b: u8) -> Self {
        let Page { bytes, filled } = self;
        bytes[filled] = b;
        Page {
            bytes,
            filled: filled + 1,
        }
    }

    #[inline(always)]
    fn put_bytes(self, s: &[u8]) -> Self {
        let Page { bytes, filled } = self;
        let end = filled + s.len();
        bytes[filled..end].copy_from_slice(s);
        Page { bytes, filled: end }
    }

    ghost use Rattle.text.specs.PageLaws.{page_laws};

    ghost laws = { page_laws };
}

// Bytes that are counted and not kept.
#[derive(Clone, Copy, Debug, PartialEq, Eq)]
pub struct Count {
    bytes: usize,
}

impl Count {
    pub const NONE: Count = Count { bytes: 0 };

    // How many bytes were put.
    pub fn bytes(self) -> usize
        ensures { result ≡ self.bytes }
    {
        self.bytes
    }
}

impl Sink for Count {
    ghost use Rattle.text.specs.Counts.{count_space, Counted, count_laws};

    ghost space = { count_space };

    ghost appended = { Counted };

    #[inline(always)]
    fn put_byte(self, _b: u8) -> Count {
        Count {
            bytes: self.bytes + 1,
        }
    }

    #[inline(always)]
    fn put_bytes(self, s: &[u8]) -> Count {
        Count {
            bytes: self.bytes + s.len(),
        }
    }

    ghost laws = { count_laws };
}
