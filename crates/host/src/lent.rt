// What is lent in words or in little-endian bytes (docs/HOST.md).
ghost use Rattle.std.specs.Prelude.{◌≡◌, ◌+◌, ◌^◌, ◌<◌, ◌≤◌, List, ℕ, length, get_or, take};
ghost use Rattle.types.specs.Means.{abi_means};
ghost use Rattle.words.specs.Words.{whole_words};
ghost use Rattle.host.specs.Infos.{info_at};

use crate::given::info_of;
use types::CanonicalAbiInfo;
use words::{word_at, words_of};

// An info has so many numbers: two sizes, two alignments and the flat count.
pub(crate) const INFO_WORDS: usize = 5;

// Words that may be lent as they are, or as bytes.
pub(crate) trait Lent: Copy {
    ghost words: { Self → List ℕ };

    fn count(self) -> usize
        ensures { result ≡ length (words self) };

    fn word(self, at: usize) -> u32
        requires { at < length (words self) }
        ensures value { result ≡ get_or (words self) at 0 }
        ensures few { length (words self) < 2 ^ 64 };
}

impl Lent for &[u32] {
    ghost words = { λ s. s.now };

    fn count(self) -> usize {
        self.len()
    }

    fn word(self, at: usize) -> u32 {
        self[at]
    }
}

// Bytes after the last whole word are not read.
#[tactic(auto, using(words::proofs::Laws::length_whole))]
impl Lent for &[u8] {
    ghost words = { λ s. whole_words s.now };

    fn count(self) -> usize {
        self.len() / 4
    }

    fn word(self, at: usize) -> u32 {
        word_at(self, at)
    }
}

#[tactic(auto, unfolding(crate::specs::Infos::info_at))]
pub(crate) fn info_at<W: Lent>(words: W, at: usize) -> CanonicalAbiInfo
    requires { at + 5 ≤ length (W.words words) }
    ensures { abi_means result ≡ info_at (W.words words) at }
{
    info_of(
        words.word(at),
        words.word(at + 1),
        words.word(at + 2),
        words.word(at + 3),
        words.word(at + 4),
    )
}

// Answers the whole words of the bytes, as many as the array has room for.
#[tactic(auto, using(words::proofs::Laws::front_read))]
pub(crate) fn decoded<'a>(bytes: &[u8], room: &'a mut [u32]) -> &'a mut [u32]
    ensures { result.now ≡ take (length room.old) (whole_words bytes.now) }
{
    let count = words_of(bytes, room);
    &mut room[..count]
}
