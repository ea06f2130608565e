// Words as bytes, lowest byte first (machine/specs/Bytes.antt says what they mean), and lists of words
// that a run goes over, held as words or as bytes.
#![tactic(auto)]

ghost use Rattle.std.specs.Prelude.{◌≡◌, ◌∷◌, [], List, ℕ, ◌≤◌, ◌<◌, ◌+◌, ◌*◌, ◌/◌, length, get_or};
ghost use Rattle.machine.specs.Bytes.{words_in, bytes_of, bytes_fit};
ghost use Rattle.counting.specs.Placing.{placed};
ghost use Rattle.octets.specs.Words.{Whole};

// Whether the bytes of an input are whole words and not too many.
pub fn bytes_fit(input: &[u8]) -> bool
    ensures { result ≡ bytes_fit input.now }
{
    let n = input.len();
    (n % 4 == 0) & (n <= machine::INPUT_BYTES)
}

// Word i of those that `bytes` hold.
pub fn word_at(bytes: &[u8], i: usize) -> u32
    requires { i < length bytes.now / 4 }
    ensures { result ≡ get_or (words_in bytes.now) i 0 }
{
    let at = 4 * i;
    u32::from_le_bytes([bytes[at], bytes[at + 1], bytes[at + 2], bytes[at + 3]])
}

// The words that `bytes` hold, put at the start of `words`; answers how many they are.
pub fn unpack(bytes: &[u8], words: &mut [u32]) -> usize
    requires { Whole bytes.now words.old }
    ensures { (result ≡ length bytes.now / 4)
        × (words.new ≡ placed words.old 0 (words_in bytes.now)) }
{
    let count = bytes.len() / 4;
    for i in 0..count {
        words[i] = word_at(bytes, i);
    }
    count
}

// The bytes of `words`, put at the start of `bytes`.
pub fn pack(words: &[u32], bytes: &mut [u8])
    requires { 4 * length words.now ≤ length bytes.old }
    ensures { bytes.new ≡ placed bytes.old 0 (bytes_of words.now) }
{
    for (i, word) in words.iter().enumerate() {
        bytes[4 * i..4 * i + 4].copy_from_slice(&word.to_le_bytes());
    }
}

// A list of words, however it is held.
pub trait Words: Copy {
    ghost list: { Self → List ℕ };

    // How many words there are.
    fn count(&self) -> usize
        ensures { result ≡ length (list self.now) };

    // Word i.
    fn word(&self, i: usize) -> u32
        requires { i < length (list self.now) }
        ensures { result ≡ get_or (list self.now) i 0 };
}

// Words held as words.
impl<'a> Words for &'a [u32] {
    ghost list = { λ words. words.now };

    fn count(&self) -> usize {
        self.len()
    }

    fn word(&self, i: usize) -> u32 {
        self[i]
    }
}

// Words held as bytes: each is put together when it is asked for.
#[derive(Clone, Copy)]
pub struct Octets<'a> {
    pub bytes: &'a [u8],
}

impl<'a> Words for Octets<'a> {
    ghost list = { λ octets. words_in octets.bytes.now };

    fn count(&self) -> usize {
        self.bytes.len() / 4
    }

    fn word(&self, i: usize) -> u32 {
        word_at(self.bytes, i)
    }
}

#[cfg(test)]
mod tests {
    use super::*;

    // The last of some words.
    fn last<W: Words>(words: W) -> Option<u32> {
        let n = words.count();
        if n == 0 {
            return None;
        }
        Some(words.word(n - 1))
    }

    #[test]
    fn last_of_words_and_of_bytes(rt: HostRuntime) {
        let words: &[u32] = &[1, 0x8765_4321];
        let bytes: &[u8] = &[1, 0, 0, 0, 0x21, 0x43, 0x65, 0x87];
        assert_eq!(rt; last(words), Some(0x8765_4321));
        assert_eq!(rt; last(Octets { bytes }), Some(0x8765_4321));
        assert_eq!(rt; last(&words[..0]), None);
        assert_eq!(rt; last(Octets { bytes: &bytes[..3] }), None);
    }
}
