// Makes the rows of variants, enums, options and results from the payloads so far, in both memories at once.
ghost use Rattle.std.specs.Prelude.{◌≡◌};
ghost use Rattle.canon.specs.Cost.{rows_among};
ghost use Rattle.canon.specs.Types.{kind_word};
ghost use Rattle.types.specs.Means.{leaf, bytes_of};
ghost use Rattle.table.specs.Means.{info_means, row_means};
ghost use Rattle.head.specs.Means.{kind_means};
ghost use Rattle.build.specs.Means.{look_in, counted, ReadBack, payloads_means};
ghost use Rattle.build.specs.Kinds.{variant_row, enum_row, option_row};
ghost use Rattle.build.specs.Steps.{PayloadsIs, add_payload, with_case, payloads_row};

use crate::counted::Counted;
use crate::gather::{Parts, References};
use crate::reference::Earlier;
use crate::row::fit_row;
use flat_types::FlatTypes;
use head::Kind;
use table::{Info, Inner, NO_LAYOUTS, Reach, Row};
use types::{Both, DiscriminantSize, Extent, Layout, Refusal};

// The payloads so far: what is as large and as aligned as any of them.
#[derive(Clone, Copy)]
struct Payloads {
    layouts: Both<Layout>,
    flat: FlatTypes,
    reach: Reach,
}

impl Payloads {
    const NONE: Payloads = Payloads {
        layouts: Both::<Layout>::EMPTY,
        flat: FlatTypes::EMPTY,
        reach: Reach::NONE,
    };

    fn add(self, payload: Info) -> Payloads
        ensures { payloads_means result ≡ add_payload (payloads_means self) (info_means payload) }
    {
        Payloads {
            layouts: self.layouts.widest(payload.layouts),
            flat: self.flat.join(payload.flat),
            reach: self.reach.join(payload.reach),
        }
    }

    fn row(self, kind: Kind, size: DiscriminantSize) -> Result<Row, Refusal>
        ensures { leaf row_means result ≡ payloads_row (kind_word (kind_means kind)) (bytes_of size) (payloads_means self) }
    {
        let step = Both::<Extent>::variant(size, self.layouts);
        let inner = Inner {
            discriminant: size.byte_size(),
            offset32: step.in32.start as u32,
            offset64: step.in64.start as u32,
            entries: NO_LAYOUTS,
        };
        fit_row(
            kind,
            step.extents(),
            self.flat.with_discriminant(),
            inner,
            self.reach,
        )
    }
}

impl Parts for Payloads {
    ghost Sum = { PayloadsIs };

    ghost means = { payloads_means };

    ghost with = { with_case };

    #[tactic(auto, unfolding(crate::specs::Steps::add_if_payload, canon::specs::Answer::and_then))]
    fn with(self, earlier: Earlier, reference: u32) -> Result<Counted<Payloads>, Refusal> {
        let case = earlier.case(reference)?;
        Ok(case.map(|payload| payload.map_or(self, |payload| self.add(payload))))
    }
}

// The references are the cases, each a payload or the mark.
#[tactic(auto, unfolding(crate::specs::Kinds::variant_row, canon::specs::Answer::and_then, canon::specs::Reach::word_reach))]
pub(crate) fn variant_row(kind: Kind, references: References) -> Result<Counted<Row>, Refusal>
    ensures value { counted row_means result ≡ variant_row (kind_word (kind_means kind)) (look_in references.entry.earlier) references.entry.words.now }
    ensures reads { ReadBack result (rows_among references.entry.words.now) }
{
    let size = DiscriminantSize::from_count(references.words.len() as u32)?;
    references
        .gather(Payloads::NONE)?
        .and_then(|payloads| payloads.row(kind, size))
}

#[tactic(auto, unfolding(crate::specs::Kinds::enum_row, canon::specs::Answer::and_then, canon::specs::Reach::word_reach))]
pub(crate) fn enum_row(cases: u32) -> Result<Row, Refusal>
    ensures { leaf row_means result ≡ enum_row cases }
{
    Payloads::NONE.row(Kind::Enum, DiscriminantSize::from_count(cases)?)
}

// An option has the cases none and some.
#[tactic(auto, unfolding(crate::specs::Kinds::option_row, canon::specs::Reach::word_reach))]
pub(crate) fn option_row(payload: Info) -> Result<Row, Refusal>
    ensures { leaf row_means result ≡ option_row (info_means payload) }
{
    Payloads::NONE
        .add(payload)
        .row(Kind::Option, DiscriminantSize::Size1)
}
