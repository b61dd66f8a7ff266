// How one side of a call is compiled, and how many flat types it passes outside memory.
ghost use Rattle.std.specs.Prelude.{◌≡◌, ◌≤◌};
ghost use Rattle.canon.specs.Signature.{lowering_max, lifting_max, params_max};

use types::Memory;

// The source names these maxima, and 01 gives their values.
pub const MAX_FLAT_PARAMS: u32 = 16;

pub const MAX_FLAT_ASYNC_PARAMS: u32 = 4;

pub const MAX_FLAT_RESULTS: u32 = 1;

#[derive(Clone, Copy)]
pub struct Side {
    pub memory: Memory,
    pub async_: bool,
}

impl Side {
    pub(crate) fn lowering_max(self) -> u32
        ensures maximum { result ≡ lowering_max self.async_ }
        ensures small { result ≤ 16 }
    {
        if self.async_ { 0 } else { MAX_FLAT_RESULTS }
    }

    pub(crate) fn lifting_max(self) -> u32
        ensures maximum { result ≡ lifting_max self.async_ }
        ensures small { result ≤ 16 }
    {
        if self.async_ {
            MAX_FLAT_PARAMS
        } else {
            MAX_FLAT_RESULTS
        }
    }

    // Of a lower's parameters: an async lower passes fewer than any other call.
    pub(crate) fn params_max(self) -> u32
        ensures maximum { result ≡ params_max self.async_ }
        ensures small { result ≤ 16 }
    {
        if self.async_ {
            MAX_FLAT_ASYNC_PARAMS
        } else {
            MAX_FLAT_PARAMS
        }
    }
}
