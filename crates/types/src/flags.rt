// Flags of more than 16 labels stand in groups of 32 labels each, the last of them perhaps not full.
ghost use Rattle.std.specs.Prelude.{◌≡◌};
ghost use Rattle.canon.specs.Layout.{groups};

// Flags may have so many labels: with one more their flat count would pass 16.
pub(crate) const MAX_FLAGS: u32 = 512;

// Counts the groups that so many labels start.
pub fn flag_groups(count: u32) -> u32
    ensures { result ≡ groups count }
{
    count.div_ceil(32)
}
