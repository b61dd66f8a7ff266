// What a build or a question takes from a type. The source wraps each index in a struct of one number; here, too, a definition's index and a
// member's position are never mixed.
use crate::reach::Reach;
use flat_types::FlatTypes;
use types::{Both, Layout};

// Is the reference to definition 0.
pub const FIRST_DEFINITION: u32 = 64;

#[derive(Clone, Copy)]
pub struct DefinitionIndex(pub u32);

#[derive(Clone, Copy)]
pub struct MemberPosition(pub u32);

// What a row holds where there is nothing to lay out.
pub const NO_LAYOUTS: Both<Layout> = Both {
    in32: Layout { size: 0, align: 0 },
    in64: Layout { size: 0, align: 0 },
};

#[derive(Clone, Copy)]
pub struct Info {
    pub layouts: Both<Layout>,
    pub flat: FlatTypes,
    pub reach: Reach,
}
