// What of a list goes through memory.
ghost use Rattle.std.specs.Prelude.{◌≡◌, ◌≤◌};
ghost use Rattle.canon.specs.Signature.{at_most, or_pointer, list_or_none};
ghost use Rattle.types.specs.Means.{memory_of};
ghost use Rattle.flat_types.specs.Lists.{words, packed, flat};
ghost use Rattle.signature.specs.Means.{flattened_means};
ghost use Rattle.signature.specs.Packs.{packed_list, packed_flat};

use crate::side::MAX_FLAT_RESULTS;
use flat_types::FlatList;
use types::Memory;

// A list as a gather gives it: nothing stands above its types, so it can be handed on as it is.
#[derive(Clone, Copy)]
pub(crate) struct CleanList {
    pub(crate) list: FlatList,
    ghost clean: { words list ≡ packed (flat list) },
}

impl CleanList {
    // Passes a list of at most so many types; a longer one lies in memory.
    #[tactic(auto, using(crate::proofs::Maxima::is_listed, crate::proofs::Maxima::is_beyond))]
    pub(crate) fn at_most(self, max: u32) -> Option<FlatList>
        requires { max ≤ 16 }
        ensures { flattened_means result ≡ packed_flat (at_most max (flat self.list)) }
    {
        if self.list.count <= max {
            Some(self.list)
        } else {
            None
        }
    }

    // Passes a list of at most so many types, or one pointer to what lies in memory.
    pub(crate) fn or_pointer(self, memory: Memory, max: u32) -> FlatList
        requires { max ≤ 16 }
        ensures { words result ≡ packed_list (or_pointer (memory_of memory) (at_most max (flat self.list))) }
    {
        self.at_most(max)
            .unwrap_or_else(|| FlatList::EMPTY.with_pointer(memory))
    }

    // Hands results back as they are; what lies in memory is not handed back.
    pub(crate) fn or_nothing(self) -> FlatList
        ensures { words result ≡ packed_list (list_or_none (at_most 1 (flat self.list))) }
    {
        self.at_most(MAX_FLAT_RESULTS).unwrap_or(FlatList::EMPTY)
    }
}
