// What the references without a definition stand for: the scalars, String and the handles.
ghost use Rattle.std.specs.Prelude.{◌≡◌, ◌≤◌, eqb};
ghost use Rattle.std.proofs.Math.ListN.{get_elem?};
ghost use Rattle.canon.specs.Question.{plain_info};
ghost use Rattle.canon.specs.Types.{plain};
ghost use Rattle.types.specs.Means.{leaf, abi_means, layouts_means};
ghost use Rattle.table.specs.Means.{Plain, PlainLayouts, info_means, reach_of};

use crate::info::Info;
use crate::reach::Reach;
use flat_types::FlatTypes;
use types::{Both, CanonicalAbiInfo, Layout, Refusal};

const STRING: u32 = 12;

const BORROW: u32 = 14;

const LAST: u32 = 17;

// How often 8 is halved to the size of each reference: two bits for each, that of 0 last.
const HALVINGS: u64 = 0b01_01_01_01_01_00_01_00_01_00_00_01_01_10_10_11_11_11;

// Of the constant the layouts alone are read; its flat count is promised with them.
fn abi(reference: u32) -> CanonicalAbiInfo
    requires { reference ≤ 17 }
    ensures { Plain reference (abi_means result) }
{
    match reference {
        0..=2 => CanonicalAbiInfo::SCALAR1,
        3 | 4 => CanonicalAbiInfo::SCALAR2,
        7 | 8 | 10 => CanonicalAbiInfo::SCALAR8,
        STRING => CanonicalAbiInfo::POINTER_PAIR,
        _ => CanonicalAbiInfo::SCALAR4,
    }
}

fn by_arms(reference: u32) -> Both<Layout>
    requires { reference ≤ 17 }
    ensures { PlainLayouts reference (layouts_means result) }
{
    abi(reference).layouts()
}

#[tactic(auto, unfolding(canon::specs::Reach::reach_word))]
fn reach(reference: u32) -> Reach
    ensures { result ≡ reach_of (record { borrow = eqb reference 14; depth = 0 }) }
{
    if reference == BORROW {
        Reach::BORROW
    } else {
        Reach::NONE
    }
}

fn by_shifts(reference: u32) -> Both<Layout>
    requires { reference ≤ 17 }
    ensures { PlainLayouts reference (layouts_means result) }
{
    if reference == STRING {
        return CanonicalAbiInfo::POINTER_PAIR.layouts();
    }
    let halvings = (HALVINGS >> (2 * reference)) % 4;
    let size = 8 >> halvings as u32;
    let square = Layout { size, align: size };
    Both {
        in32: square,
        in64: square,
    }
}

// Refuses BadRef for every word above 17. How the layouts are found is left to the caller.
fn with_layouts<F: Fn(u32) -> Both<Layout>>(reference: u32, layouts: F) -> Result<Info, Refusal>
    requires callable { reference ≤ 17 → F.pre layouts reference }
    requires laid_out { reference ≤ 17 → (b : _) → F.post layouts reference b → PlainLayouts reference (layouts_means b) }
    ensures { leaf info_means result ≡ plain_info (get_elem? plain reference) }
{
    if reference > LAST {
        return Err(Refusal::BadRef);
    }
    Ok(Info {
        layouts: layouts(reference),
        flat: FlatTypes::plain(reference),
        reach: reach(reference),
    })
}

// Refuses BadRef for every word above 17.
pub fn plain_info(reference: u32) -> Result<Info, Refusal>
    ensures { leaf info_means result ≡ plain_info (get_elem? plain reference) }
{
    with_layouts(reference, by_arms)
}

// Answers as plain_info does, by shifts in place of arms: so short that the compiler puts it into the loops of a build. A placement is faster by
// the arms.
pub fn plain_info_by_shifts(reference: u32) -> Result<Info, Refusal>
    ensures { leaf info_means result ≡ plain_info (get_elem? plain reference) }
{
    with_layouts(reference, by_shifts)
}
