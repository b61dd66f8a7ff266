// Flat types are lists of core types, packed two bits each and the first lowest (I32 0, I64 1, F32 2, F64 3).
#![tactic(auto)]

mod both;
mod join;
mod list;
mod packed;
mod repeat;

pub use both::FlatTypes;
pub use list::FlatList;
