// Answers the core signatures of lifted and lowered functions, over a table and lent lists of references.
#![tactic(auto)]

mod flatten;
mod functype;
mod lists;
mod question;
mod side;
mod signatures;
mod two;

pub use flatten::{
    contains_borrow_resource, flatten_lifting_types, flatten_lowering_types, flatten_types,
};
pub use functype::{Context, flatten_functype};
pub use question::{SignatureQuestion, signature_of};
pub use side::{MAX_FLAT_ASYNC_PARAMS, MAX_FLAT_PARAMS, MAX_FLAT_RESULTS, Side};
pub use signatures::{Signature, async_return_signature, async_start_signature};
