// Reads the head of one definition, then makes its kind's row.
ghost use Rattle.std.specs.Prelude.{◌≡◌, ◌+◌, ◌≤◌, ◌<◌, length, get_or, drop};
ghost use Rattle.canon.specs.Description.{kind_of};
ghost use Rattle.canon.specs.Cost.{rows_among, references_behind};
ghost use Rattle.table.specs.Means.{row_means};
ghost use Rattle.head.specs.Means.{heading_means};
ghost use Rattle.head.specs.Heads.{Spans, between};
ghost use Rattle.build.specs.Means.{look_in, counted, ReadBack, defined_means};
ghost use Rattle.build.specs.Kinds.{kind_row, defined_at};

use crate::cases::{enum_row, option_row, variant_row};
use crate::counted::Counted;
use crate::gather::References;
use crate::members::{map_row, members_row};
use crate::reference::Earlier;
use crate::simple::{fixed_row, flags_row, list_row};
use head::{Heading, Kind, read_head};
use table::Row;
use types::Refusal;

// Holds the row, and the place where the next definition begins.
#[derive(Clone, Copy)]
pub(crate) struct DefinedRow {
    pub(crate) row: Row,
    pub(crate) next: usize,
}

fn kind_row(words: &[u32], heading: Heading, earlier: Earlier) -> Result<Counted<Row>, Refusal>
    requires { Spans (heading_means heading) (length words.now) × (length words.now ≤ 16384) }
    ensures value { counted row_means result ≡ kind_row (look_in earlier.entry) words.now (heading_means heading) }
    ensures reads { ReadBack result (rows_among (between words.now heading.first heading.end)) }
{
    let kind = heading.kind;
    let references = References {
        words: &words[heading.first..heading.end],
        earlier,
    };
    match kind {
        Kind::Record | Kind::Tuple => members_row(kind, references),
        Kind::Variant | Kind::Result => variant_row(kind, references),
        Kind::List => earlier.member(references.words[0])?.and_then(list_row),
        Kind::Map => map_row(earlier, references.words[0], references.words[1]),
        Kind::Flags => Ok(Counted::unread(flags_row(heading.count)?)),
        Kind::Enum => Ok(Counted::unread(enum_row(heading.count)?)),
        Kind::Option => earlier.member(references.words[0])?.and_then(option_row),
        // Its length stands behind its reference.
        Kind::FixedLengthList => {
            let element = earlier.member(references.words[0])?;
            let row = fixed_row(words[heading.end], element.value)?;
            Ok(Counted {
                value: row,
                reads: element.reads,
            })
        }
    }
}

#[tactic(auto, unfolding(crate::specs::Kinds::defined_at, canon::specs::Answer::and_then))]
pub(crate) fn define(
    words: &[u32],
    at: usize,
    earlier: Earlier,
) -> Result<Counted<DefinedRow>, Refusal>
    requires { (at < length words.now) × (length words.now ≤ 16384) }
    ensures value { counted defined_means result ≡ defined_at (look_in earlier.entry) words.now at }
    ensures reads { ReadBack result (rows_among (references_behind (kind_of (get_or words.now at 0)) (drop (at + 1) words.now))) }
{
    let heading = read_head(words, at)?;
    let next = heading.next;
    Ok(kind_row(words, heading, earlier)?.map(|row| DefinedRow { row, next }))
}
