// Makes the rows of lists, fixed lists and flags, which need no loop.
ghost use Rattle.std.specs.Prelude.{◌≡◌};
ghost use Rattle.types.specs.Means.{leaf};
ghost use Rattle.table.specs.Means.{info_means, row_means};
ghost use Rattle.build.specs.Kinds.{list_row, fixed_row, flags_row};

use crate::row::{NO_INNER, fit_row, pair_row, row_of};
use flat_types::FlatTypes;
use head::Kind;
use table::{Info, Reach, Row};
use types::{CanonicalAbiInfo, Refusal};

// The row of a list knows nothing of its element but what that reaches.
#[tactic(auto, unfolding(crate::specs::Kinds::list_row, canon::specs::Answer::and_then))]
pub(crate) fn list_row(element: Info) -> Result<Row, Refusal>
    ensures { leaf row_means result ≡ list_row (info_means element) }
{
    let reach = element.reach.deeper()?;
    Ok(pair_row(Kind::List, NO_INNER, reach))
}

pub(crate) fn fixed_row(count: u32, element: Info) -> Result<Row, Refusal>
    ensures { leaf row_means result ≡ fixed_row count (info_means element) }
{
    fit_row(
        Kind::FixedLengthList,
        element.layouts.repeat(count),
        element.flat.repeat(count),
        NO_INNER,
        element.reach,
    )
}

#[tactic(auto, unfolding(crate::specs::Kinds::flags_row, canon::specs::Answer::and_then))]
pub(crate) fn flags_row(count: u32) -> Result<Row, Refusal>
    ensures { leaf row_means result ≡ flags_row count }
{
    let abi = CanonicalAbiInfo::flags(count)?;
    let info = Info {
        layouts: abi.layouts(),
        flat: FlatTypes::flags(count),
        reach: Reach::DEFINITION,
    };
    Ok(row_of(Kind::Flags, info, NO_INNER))
}
