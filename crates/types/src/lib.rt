// The leaves of layout are here: refusals, rounding, flat counts, the step in one memory and in both, and the info of a type.
#![tactic(auto)]

mod both;
mod discriminant;
mod extent;
mod flags;
mod flat;
mod info;
mod memory;
mod record;
mod refusal;
mod round;
mod variant;

pub use both::Both;
pub use discriminant::DiscriminantSize;
pub use extent::{Extent, FOUR_GIB, Layout, Step};
pub use flags::flag_groups;
pub use flat::{MAX_FLAT_TYPES, NO_FLAT_COUNT, add_flat, max_flat};
pub use info::{CanonicalAbiInfo, NextField};
pub use memory::Memory;
pub use record::RecordState;
pub use refusal::Refusal;
pub use round::{Rounded, align_to, max};
pub use variant::{VariantInfo, VariantState};
