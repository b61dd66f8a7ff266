// Makes the row of a definition that is not too deep, where both memories can hold it.
ghost use Rattle.std.specs.Prelude.{◌≡◌};
ghost use Rattle.canon.specs.Row.{row_words};
ghost use Rattle.canon.specs.Types.{kind_word};
ghost use Rattle.types.specs.Means.{leaf, layouts_means, each};
ghost use Rattle.table.specs.Means.{reach_means, row_means};
ghost use Rattle.head.specs.Means.{kind_means};
ghost use Rattle.build.specs.Means.{limited_means, flat_means, inner_means};
ghost use Rattle.build.specs.Steps.{limited_of, fit_row, pair_words};

use flat_types::FlatTypes;
use head::{Kind, kind_word};
use table::{Info, Inner, NO_LAYOUTS, Reach, Row};
use types::{Both, CanonicalAbiInfo, Extent, Layout, Refusal};

// What a definition is within the limits of depth and size: its layouts and what it reaches.
#[derive(Clone, Copy)]
pub(crate) struct Limited {
    pub(crate) layouts: Both<Layout>,
    pub(crate) reach: Reach,
}

pub(crate) const NO_INNER: Inner = Inner {
    discriminant: 0,
    offset32: 0,
    offset64: 0,
    entries: NO_LAYOUTS,
};

// A list and a map have the layouts and the flat types of a pointer pair.
pub(crate) fn pair_row(kind: Kind, inner: Inner, reach: Reach) -> Row
    ensures { row_means result ≡ pair_words (kind_word (kind_means kind)) (inner_means inner) (reach_means reach) }
{
    let info = Info {
        layouts: CanonicalAbiInfo::POINTER_PAIR.layouts(),
        flat: FlatTypes::POINTER_PAIR,
        reach,
    };
    row_of(kind, info, inner)
}

#[tactic(auto, using(canon::proofs::Reaches::reach_back))]
pub(crate) fn row_of(kind: Kind, info: Info, inner: Inner) -> Row
    ensures { row_means result ≡ row_words (kind_word (kind_means kind)) (layouts_means info.layouts) (flat_means info.flat) (inner_means inner) (reach_means info.reach) }
{
    Row {
        kind: kind_word(kind),
        info,
        inner,
    }
}

// Makes the last two tests of a definition. Refuses TooDeep, by what its references reach, then TooLarge where a memory cannot hold it.
#[tactic(auto, unfolding(crate::specs::Steps::limited_of, canon::specs::Answer::and_then, table::specs::Means::deeper_answer))]
pub(crate) fn within_limits(extents: Both<Extent>, parts: Reach) -> Result<Limited, Refusal>
    ensures { leaf limited_means result ≡ limited_of (each extents) (reach_means parts) }
{
    let reach = parts.deeper()?;
    let layouts = extents.fitted()?;
    Ok(Limited { layouts, reach })
}

#[tactic(auto, unfolding(crate::specs::Steps::fit_row, canon::specs::Answer::and_then))]
pub(crate) fn fit_row(
    kind: Kind,
    extents: Both<Extent>,
    flat: FlatTypes,
    inner: Inner,
    parts: Reach,
) -> Result<Row, Refusal>
    ensures { leaf row_means result ≡ fit_row (each extents) (reach_means parts) (λ ls. row_words (kind_word (kind_means kind)) ls (flat_means flat) (inner_means inner)) }
{
    let limited = within_limits(extents, parts)?;
    let info = Info {
        layouts: limited.layouts,
        flat,
        reach: limited.reach,
    };
    Ok(row_of(kind, info, inner))
}
