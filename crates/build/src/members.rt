// Makes the rows of records, tuples and maps from the members so far, in both memories at once.
ghost use Rattle.std.specs.Prelude.{◌≡◌, [], ◌∷◌};
ghost use Rattle.canon.specs.Answer.{and_then};
ghost use Rattle.canon.specs.Cost.{rows_among};
ghost use Rattle.canon.specs.Types.{kind_word};
ghost use Rattle.types.specs.Means.{leaf};
ghost use Rattle.table.specs.Means.{info_means, row_means};
ghost use Rattle.head.specs.Means.{kind_means};
ghost use Rattle.build.specs.Means.{look_in, counted, ReadBack, members_means};
ghost use Rattle.build.specs.Steps.{MembersIs, no_members, add_member, with_member, members_row, fold_refs};
ghost use Rattle.build.specs.Kinds.{entry_row, map_row};

use crate::counted::Counted;
use crate::gather::{Parts, References};
use crate::reference::Earlier;
use crate::row::{NO_INNER, fit_row, pair_row, within_limits};
use flat_types::FlatTypes;
use head::Kind;
use table::{Info, Inner, Reach, Row};
use types::{Both, Extent, Refusal};

// The members so far: an end may pass 4 GiB, so it is no layout yet.
#[derive(Clone, Copy)]
struct Members {
    extents: Both<Extent>,
    flat: FlatTypes,
    reach: Reach,
}

impl Members {
    const NONE: Members = Members {
        extents: Both::<Extent>::EMPTY,
        flat: FlatTypes::EMPTY,
        reach: Reach::NONE,
    };

    fn add(self, member: Info) -> Members
        ensures { members_means result ≡ add_member (members_means self) (info_means member) }
    {
        Members {
            extents: self.extents.member(member.layouts).extents(),
            flat: self.flat.append(member.flat),
            reach: self.reach.join(member.reach),
        }
    }

    #[tactic(auto, unfolding(crate::specs::Steps::members_row))]
    fn row(self, kind: Kind) -> Result<Row, Refusal>
        ensures { leaf row_means result ≡ members_row (kind_word (kind_means kind)) (members_means self) }
    {
        fit_row(kind, self.extents.close(), self.flat, NO_INNER, self.reach)
    }
}

impl Parts for Members {
    ghost Sum = { MembersIs };

    ghost means = { members_means };

    ghost with = { with_member };

    #[tactic(auto, unfolding(canon::specs::Answer::and_then))]
    fn with(self, earlier: Earlier, reference: u32) -> Result<Counted<Members>, Refusal> {
        Ok(earlier.member(reference)?.map(|member| self.add(member)))
    }
}

#[tactic(auto, unfolding(canon::specs::Answer::and_then, canon::specs::Reach::word_reach))]
pub(crate) fn members_row(kind: Kind, references: References) -> Result<Counted<Row>, Refusal>
    ensures value { counted row_means result ≡ and_then (fold_refs (with_member (look_in references.entry.earlier)) references.entry.words.now no_members) (members_row (kind_word (kind_means kind))) }
    ensures reads { ReadBack result (rows_among references.entry.words.now) }
{
    references
        .gather(Members::NONE)?
        .and_then(|members| members.row(kind))
}

// Makes the row of a map by the layout of its entries. A value starts where it stands in an entry.
fn entry_row(key: Info, value: Info) -> Result<Row, Refusal>
    ensures { leaf row_means result ≡ entry_row (info_means key) (info_means value) }
{
    let first = Both::<Extent>::EMPTY.member(key.layouts).extents();
    let second = first.member(value.layouts);
    let entry = within_limits(second.extents().close(), key.reach.join(value.reach))?;
    let inner = Inner {
        discriminant: 0,
        offset32: second.in32.start as u32,
        offset64: second.in64.start as u32,
        entries: entry.layouts,
    };
    Ok(pair_row(Kind::Map, inner, entry.reach))
}

#[tactic(auto, unfolding(crate::specs::Kinds::map_row, canon::specs::Answer::and_then))]
pub(crate) fn map_row(earlier: Earlier, key: u32, value: u32) -> Result<Counted<Row>, Refusal>
    ensures value { counted row_means result ≡ map_row (look_in earlier.entry) key value }
    ensures reads { ReadBack result (rows_among (key ∷ value ∷ [])) }
{
    let key = earlier.member(key)?;
    let value = earlier.member(value)?;
    Ok(Counted {
        value: entry_row(key.value, value.value)?,
        reads: key.reads + value.reads,
    })
}
