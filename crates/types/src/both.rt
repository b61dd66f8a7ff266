// Does for both memories at once what extent.rt does in one: layouts, extents and their steps.
ghost use Rattle.std.specs.Prelude.{◌≡◌, ◌&&◌, ◌*◌};
ghost use Rattle.canon.specs.Layout.{both, within};
ghost use Rattle.canon.specs.Row.{good_layout};
ghost use Rattle.types.specs.Means.{memory_of, bytes_of, leaf, layout_means, each, layouts_means};
ghost use Rattle.types.specs.Extents.{extent_at, member_of, close_of, variant_step, widest, fitted_of};

use crate::discriminant::DiscriminantSize;
use crate::extent::{Extent, Layout, Step};
use crate::memory::Memory;
use crate::refusal::Refusal;

// Holds what a type has in each of the two memories.
#[derive(Clone, Copy)]
pub struct Both<T> {
    pub in32: T,
    pub in64: T,
}

impl<T: Copy> Both<T> {
    pub fn in_memory(self, memory: Memory) -> T
        ensures { result ≡ within (memory_of memory) (each self) }
    {
        match memory {
            Memory::Memory32 => self.in32,
            Memory::Memory64 => self.in64,
        }
    }

    // Does the same in each memory.
    pub(crate) fn map<U, F: Fn(T) -> U>(self, f: F) -> Both<U>
        requires in32 { F.pre f self.in32 }
        requires in64 { F.pre f self.in64 }
        ensures in32 { F.post f self.in32 result.in32 }
        ensures in64 { F.post f self.in64 result.in64 }
    {
        Both {
            in32: f(self.in32),
            in64: f(self.in64),
        }
    }

    // Does the same in each memory, with what another has there.
    pub(crate) fn zip_with<U: Copy, V, F: Fn(T, U) -> V>(self, other: Both<U>, f: F) -> Both<V>
        requires in32 { F.pre f self.in32 other.in32 }
        requires in64 { F.pre f self.in64 other.in64 }
        ensures in32 { F.post f self.in32 other.in32 result.in32 }
        ensures in64 { F.post f self.in64 other.in64 result.in64 }
    {
        Both {
            in32: f(self.in32, other.in32),
            in64: f(self.in64, other.in64),
        }
    }
}

impl Both<Layout> {
    // Nothing takes no room and is aligned anywhere.
    pub const EMPTY: Both<Layout> = Both {
        in32: Layout { size: 0, align: 1 },
        in64: Layout { size: 0, align: 1 },
    };

    pub fn is_good(self) -> bool
        ensures { result ≡ (good_layout (layout_means self.in32) && good_layout (layout_means self.in64)) }
    {
        self.in32.is_good() && self.in64.is_good()
    }

    pub fn widest(self, other: Both<Layout>) -> Both<Layout>
        ensures { layouts_means result ≡ both (λ m. widest (within m (layouts_means self)) (within m (layouts_means other))) }
    {
        self.zip_with(other, Layout::widest)
    }

    pub fn repeat(self, count: u32) -> Both<Extent>
        ensures { each result ≡ both (λ m. extent_at ((within m (layouts_means self)).size * count) (within m (layouts_means self)).align) }
    {
        self.map(|layout| layout.repeat(count))
    }
}

impl Both<Extent> {
    pub const EMPTY: Both<Extent> = Both {
        in32: Extent::EMPTY,
        in64: Extent::EMPTY,
    };

    pub fn member(self, member: Both<Layout>) -> Both<Step>
        ensures { each result ≡ both (λ m. member_of (within m (each self)) (within m (layouts_means member))) }
    {
        self.zip_with(member, Extent::member)
    }

    pub fn close(self) -> Both<Extent>
        ensures { each result ≡ both (λ m. close_of (within m (each self))) }
    {
        self.map(Extent::close)
    }

    pub fn variant(size: DiscriminantSize, payloads: Both<Layout>) -> Both<Step>
        ensures { each result ≡ both (λ m. variant_step (bytes_of size) (within m (layouts_means payloads))) }
    {
        payloads.map(|payload| Extent::variant(size, payload))
    }

    // Refuses TooLarge for an end above 4294967295 in either memory.
    #[tactic(auto, unfolding(crate::specs::Extents::fitted_of))]
    pub fn fitted(self) -> Result<Both<Layout>, Refusal>
        ensures { leaf layouts_means result ≡ fitted_of (each self) }
    {
        Ok(Both {
            in32: self.in32.fitted()?,
            in64: self.in64.fitted()?,
        })
    }
}

impl Both<Step> {
    // Leaves out where the steps start.
    pub fn extents(self) -> Both<Extent>
        ensures { each result ≡ both (λ m. (within m (each self)).extent) }
    {
        self.map(|step| step.extent)
    }
}
