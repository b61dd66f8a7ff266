// A flat count says how many core types a type flattens to, or none.
ghost use Rattle.std.specs.Prelude.{◌≡◌};
ghost use Rattle.canon.specs.Flat.{capped, add_flat, max_flat, times_flat};
ghost use Rattle.canon.specs.Row.{good_count};
ghost use Rattle.types.specs.Means.{count_means};

// 01: "a sum or product above 16 is none".
pub const MAX_FLAT_TYPES: u32 = 16;

// 01: "flat count, 255 for none".
pub const NO_FLAT_COUNT: u32 = 255;

// Tells whether a row may hold this count.
#[tactic(auto, unfolding(canon::specs::Row::good_count))]
pub(crate) fn is_good_count(count: Option<u8>) -> bool
    ensures { result ≡ good_count (count_means count) }
{
    count.is_none_or(|n| u32::from(n) <= MAX_FLAT_TYPES)
}

// Caps a sum or a product.
fn cap(n: u64) -> Option<u8>
    ensures { count_means result ≡ capped n }
{
    if n <= u64::from(MAX_FLAT_TYPES) {
        Some(n as u8)
    } else {
        None
    }
}

#[tactic(auto, unfolding(canon::specs::Flat::add_flat))]
pub fn add_flat(a: Option<u8>, b: Option<u8>) -> Option<u8>
    ensures { count_means result ≡ add_flat (count_means a) (count_means b) }
{
    cap(u64::from(a?) + u64::from(b?))
}

#[tactic(auto, unfolding(canon::specs::Flat::max_flat))]
pub fn max_flat(a: Option<u8>, b: Option<u8>) -> Option<u8>
    ensures { count_means result ≡ max_flat (count_means a) (count_means b) }
{
    Some(a?.max(b?))
}

// Counts `times` elements.
#[tactic(auto, unfolding(canon::specs::Flat::times_flat))]
pub(crate) fn times_flat(a: Option<u8>, times: u32) -> Option<u8>
    ensures { count_means result ≡ times_flat (count_means a) times }
{
    cap(u64::from(a?) * u64::from(times))
}
