// A flat list has at most 16 types, or 17 where a signature puts a pointer behind them, two bits each. The bits are one memory's, or
// both memories' where `FlatTypes` takes one step for both. A greater count is no list, and 255 is written for it.
ghost use Rattle.std.specs.Prelude.{◌≡◌, ◌≤◌};
ghost use Rattle.canon.specs.Flat.{ptr_type};
ghost use Rattle.canon.specs.Pack.{code};
ghost use Rattle.types.specs.Means.{memory_of};
ghost use Rattle.flat_types.specs.Lists.{words};
ghost use Rattle.flat_types.specs.Places.{append_to};

use types::{MAX_FLAT_TYPES, Memory, NO_FLAT_COUNT};

#[derive(Clone, Copy)]
pub struct FlatList {
    pub count: u32,
    pub types: u64,
}

// Gives the code of a pointer's type.
fn pointer_code(memory: Memory) -> u64
    ensures { result ≡ code (ptr_type (memory_of memory)) }
{
    match memory {
        Memory::Memory32 => 0,
        Memory::Memory64 => 1,
    }
}

impl FlatList {
    pub const EMPTY: FlatList = FlatList { count: 0, types: 0 };

    pub const NONE: FlatList = FlatList {
        count: NO_FLAT_COUNT,
        types: 0,
    };

    // Puts one list behind another; more than max types are none. Nothing is masked: the lists of good rows have no unused bits.
    #[tactic(auto, using(crate::proofs::Masks::pow4), unfolding(crate::specs::Places::append_to))]
    fn append_to(self, max: u32, next: FlatList) -> FlatList
        requires { max ≤ 17 }
        ensures { words result ≡ append_to max (words self) (words next) }
    {
        let count = self.count.saturating_add(next.count);
        if count > max {
            return FlatList::NONE;
        }
        FlatList {
            count,
            types: self.types | (next.types << (self.count * 2)),
        }
    }

    // Puts one list behind another.
    pub fn append(self, next: FlatList) -> FlatList
        ensures { words result ≡ append_to 16 (words self) (words next) }
    {
        self.append_to(MAX_FLAT_TYPES, next)
    }

    // Puts a pointer behind the list.
    pub fn with_pointer(self, memory: Memory) -> FlatList
        ensures { words result ≡ append_to 17 (words self) (record { number = 1; types = code (ptr_type (memory_of memory)) }) }
    {
        let pointer = FlatList {
            count: 1,
            types: pointer_code(memory),
        };
        self.append_to(MAX_FLAT_TYPES + 1, pointer)
    }
}
