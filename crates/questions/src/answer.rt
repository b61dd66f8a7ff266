// What a question answers where it refuses nothing.
use types::{CanonicalAbiInfo, Layout};

// What a type question answers: the five numbers, the flat words, the borrow and the depth.
#[derive(Clone, Copy)]
pub struct TypeInfo {
    pub abi: CanonicalAbiInfo,
    pub flat32: u32,
    pub flat64: u32,
    pub borrow: bool,
    pub depth: u32,
}

// What a placement answers of the whole: how many rows were read back for its members, its layout, and the gap after the last of them. With the
// reads behind the layout short placements take longer (docs/BENCHMARKS.md).
#[derive(Clone, Copy)]
pub struct Whole {
    pub reads: u32,
    pub layout: Layout,
    pub after: u32,
}
