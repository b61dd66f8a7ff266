// A type's flat types in both memories have one count, and one number holds both words, the 32-bit memory's in its low half.
// A count above 16 says that there is no list; 255 is written for it, as in a row. The count stays a number, and is no Option: these are
// words 5 to 7 of rows, which may be any numbers, and every function here promises its answer for all of them.
// A `FlatList` has a count and packed types too. The types are two, so that both memories' words are never taken for one's.
ghost use Rattle.std.specs.Prelude.{◌≡◌};
ghost use Rattle.std.proofs.Math.Option.{some, get_or};
ghost use Rattle.std.proofs.Math.ListN.{get_elem?};
ghost use Rattle.canon.specs.Answer.{map_option};
ghost use Rattle.canon.specs.Types as trees;
ghost use Rattle.canon.specs.Flat.{copies, flags_flat, flatten};
ghost use Rattle.canon.specs.Row.{count_of};
ghost use Rattle.types.specs.Means.{memory_of};
ghost use Rattle.flat_types.specs.Lists.{halves, whole, both_words, words_in, flat_in, Holds, words, good_flat};
ghost use Rattle.flat_types.specs.Places.{one_i32, append_to, joined};

use crate::join::join_words;
use crate::list::FlatList;
use crate::packed::{BOTH, HALF, unused_zero};
use crate::repeat::repeat_words;
use types::{MAX_FLAT_TYPES, Memory, NO_FLAT_COUNT, flag_groups};

#[derive(Clone, Copy)]
pub struct FlatTypes {
    pub count: u32,
    pub words: u64,
}

// Holds the types of the references 0 to 17, two bits each: 7, 8 I64, 9 F32, 10 F64. The place of String, which is no scalar, is not read.
const SCALARS: u64 = 0x39_4000;

// Answers how many types the words of a row hold.
fn types_of(count: u32) -> u32
    ensures { result ≡ get_or (count_of count) 0 }
{
    if count == NO_FLAT_COUNT { 0 } else { count }
}

impl FlatTypes {
    pub const EMPTY: FlatTypes = FlatTypes { count: 0, words: 0 };

    pub const NONE: FlatTypes = FlatTypes {
        count: NO_FLAT_COUNT,
        words: 0,
    };

    // An enum has this list, and a variant's discriminant too.
    pub const I32: FlatTypes = FlatTypes { count: 1, words: 0 };

    // A string, a list and a map have this list: I32 twice (0), and I64 twice (5).
    pub const POINTER_PAIR: FlatTypes = FlatTypes {
        count: 2,
        words: 0x5_0000_0000,
    };

    // Takes words 5 to 7 of a row.
    pub fn of(count: u32, word32: u32, word64: u32) -> FlatTypes
        ensures { both_words result ≡ record { number = count; types = whole (record { in32 = word32; in64 = word64 }) } }
    {
        FlatTypes {
            count,
            words: u64::from(word64) * HALF + u64::from(word32),
        }
    }

    pub fn word32(self) -> u32
        ensures { result ≡ (halves self.words).in32 }
    {
        (self.words % HALF) as u32
    }

    pub fn word64(self) -> u32
        ensures { result ≡ (halves self.words).in64 }
    {
        (self.words / HALF) as u32
    }

    // Gives the list of a reference without a definition, none for every other word.
    pub fn plain(reference: u32) -> FlatTypes
        ensures { Holds result (λ m. map_option (flatten m) (get_elem? trees.plain reference)) }
    {
        match reference {
            12 => FlatTypes::POINTER_PAIR,
            0..=17 => {
                let code = (SCALARS >> (reference * 2)) & 3;
                FlatTypes {
                    count: 1,
                    words: code * BOTH,
                }
            }
            _ => FlatTypes::NONE,
        }
    }

    // Gives the list of so many flags: one I32, which is 0 in both words, for each group of 32 that they start. More than 16 are no list.
    pub fn flags(count: u32) -> FlatTypes
        ensures { Holds result (λ m. some (flags_flat count)) }
    {
        let groups = flag_groups(count);
        if groups > MAX_FLAT_TYPES {
            return FlatTypes::NONE;
        }
        FlatTypes {
            count: groups,
            words: 0,
        }
    }

    // Takes the words of both memories as one list, so that one shift appends to both.
    fn list(self) -> FlatList
        ensures { words result ≡ both_words self }
    {
        FlatList {
            count: self.count,
            types: self.words,
        }
    }

    // Takes a record's step: the types of one more member go behind those so far, in both memories by one shift.
    pub fn append(self, next: FlatTypes) -> FlatTypes
        ensures { both_words result ≡ append_to 16 (both_words self) (both_words next) }
    {
        let all = self.list().append(next.list());
        FlatTypes {
            count: all.count,
            words: all.types,
        }
    }

    // Takes a variant's step: the types of one more payload are joined to those so far.
    #[tactic(auto, unfolding(crate::specs::Places::joined))]
    pub fn join(self, next: FlatTypes) -> FlatTypes
        ensures { both_words result ≡ joined (both_words self) (both_words next) }
    {
        let count = self.count.max(next.count);
        if count > MAX_FLAT_TYPES {
            return FlatTypes::NONE;
        }
        let least = self.count.min(next.count);
        FlatTypes {
            count,
            words: join_words(least, self.words, next.words),
        }
    }

    // Makes a variant's list of its joined payloads.
    pub fn with_discriminant(self) -> FlatTypes
        ensures { both_words result ≡ append_to 16 one_i32 (both_words self) }
    {
        FlatTypes::I32.append(self)
    }

    // Repeats the element's list n times for a fixed list.
    pub fn repeat(self, n: u32) -> FlatTypes
        ensures { Holds result (λ m. map_option (copies n) (flat_in m self)) }
    {
        // The library's `saturating_mul` divides, which takes longer than the product of two wide numbers.
        let count = u64::from(self.count) * u64::from(n);
        if self.count > MAX_FLAT_TYPES || count > u64::from(MAX_FLAT_TYPES) {
            return FlatTypes::NONE;
        }
        FlatTypes {
            count: count as u32,
            words: repeat_words(self.count, self.words, n),
        }
    }

    // Tells whether a row may hold these three words.
    #[tactic(auto, using(crate::proofs::Listing::bad_flat, crate::proofs::Listing::good_flat_lem))]
    pub fn is_good(self) -> bool
        ensures { result ≡ good_flat self }
    {
        let count = types_of(self.count);
        count <= MAX_FLAT_TYPES && unused_zero(count, self.word32() | self.word64())
    }

    // Gives the count and the word of one memory alone.
    pub fn in_memory(self, memory: Memory) -> FlatList
        ensures { words result ≡ words_in (memory_of memory) self }
    {
        let word = match memory {
            Memory::Memory32 => self.word32(),
            Memory::Memory64 => self.word64(),
        };
        FlatList {
            count: self.count,
            types: u64::from(word),
        }
    }
}
