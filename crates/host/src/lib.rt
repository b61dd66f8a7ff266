// The boundary: each call takes numbers and slices, and answers one 64-bit number.
#![tactic(auto)]

mod build_bytes;
mod given;
mod leaves;
mod lent;
mod packing;
mod pick;
mod question;
mod records;
mod signature_bytes;
mod signatures;
mod table_bytes;
mod tables;
mod variants;

pub use build_bytes::lampughjata_build_bytes;
pub use leaves::{
    lampughjata_add_flat, lampughjata_align_to, lampughjata_discriminant, lampughjata_enum,
    lampughjata_fixed_length_list, lampughjata_flags, lampughjata_max, lampughjata_max_flat,
    lampughjata_next_field,
};
pub use records::{lampughjata_record, lampughjata_record_bytes};
pub use signature_bytes::{
    lampughjata_async_return_bytes, lampughjata_async_start_bytes,
    lampughjata_contains_borrow_bytes, lampughjata_flatten_bytes, lampughjata_functype_bytes,
    lampughjata_lifting_bytes, lampughjata_lowering_bytes,
};
pub use signatures::{
    lampughjata_async_return, lampughjata_async_start, lampughjata_contains_borrow,
    lampughjata_flatten, lampughjata_functype, lampughjata_lifting, lampughjata_lowering,
};
pub use table_bytes::{
    lampughjata_placement_bytes, lampughjata_size_align_bytes, lampughjata_type_bytes,
};
pub use tables::{
    lampughjata_build, lampughjata_placement, lampughjata_size_align, lampughjata_type,
};
pub use variants::{lampughjata_variant, lampughjata_variant_bytes};
