// A variant's discriminant takes 1 byte for up to 256 cases, 2 up to 65,536, else 4, as 01 says.
ghost use Rattle.std.specs.Prelude.{◌≡◌};
ghost use Rattle.types.specs.Means.{leaf, bytes_of};
ghost use Rattle.types.specs.Leaves.{discriminant_answer};

use crate::Refusal;

#[derive(Clone, Copy)]
pub enum DiscriminantSize {
    Size1 = 1,
    Size2 = 2,
    Size4 = 4,
}

impl DiscriminantSize {
    // Refuses BadCount for no case.
    #[tactic(auto, unfolding(crate::specs::Leaves::discriminant_answer, crate::specs::Leaves::given))]
    pub fn from_count(count: u32) -> Result<DiscriminantSize, Refusal>
        ensures { leaf bytes_of result ≡ discriminant_answer count }
    {
        match count {
            0 => Err(Refusal::BadCount),
            1..=256 => Ok(DiscriminantSize::Size1),
            257..=65536 => Ok(DiscriminantSize::Size2),
            _ => Ok(DiscriminantSize::Size4),
        }
    }

    pub fn byte_size(self) -> u32
        ensures { result ≡ bytes_of self }
    {
        self as u32
    }
}
