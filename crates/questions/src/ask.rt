// Answers the type question.
ghost use Rattle.std.specs.Prelude.{◌≡◌, ◌≤◌};
ghost use Rattle.canon.specs.Row.{count_of};
ghost use Rattle.canon.specs.Question.{read, type_answer};
ghost use Rattle.types.specs.Means.{leaf, count_means};
ghost use Rattle.table.specs.Means.{answer, member_place, info_means};
ghost use Rattle.questions.specs.Means.{type_info_means};

use crate::answer::TypeInfo;
use crate::read::{Rows, refused};
use table::{FIRST_DEFINITION, Info, MemberPosition, Refused, plain_info, row_info};
use types::{CanonicalAbiInfo, NO_FLAT_COUNT, Refusal};

#[tactic(auto, using(crate::proofs::References::read_plain))]
fn read(rows: Rows, reference: u32) -> Result<Info, Refusal>
    ensures { leaf info_means result ≡ read rows.entry.table.now rows.entry.n reference }
{
    if reference < FIRST_DEFINITION {
        return plain_info(reference);
    }
    Ok(row_info(rows.table, rows.good_row(reference)?))
}

// A row's flat count: 255 is none.
fn flat_count(count: u32) -> Option<u8>
    requires { count ≤ 255 }
    ensures { count_means result ≡ count_of count }
{
    if count == NO_FLAT_COUNT {
        None
    } else {
        Some(count as u8)
    }
}

#[tactic(auto, unfolding(canon::specs::Reach::word_reach))]
fn type_info(info: Info) -> TypeInfo
    requires { info.flat.count ≤ 255 }
    ensures { type_info_means result ≡ info_means info }
{
    TypeInfo {
        abi: CanonicalAbiInfo {
            size32: info.layouts.in32.size,
            align32: info.layouts.in32.align,
            size64: info.layouts.in64.size,
            align64: info.layouts.in64.align,
            flat_count: flat_count(info.flat.count),
        },
        flat32: info.flat.word32(),
        flat64: info.flat.word64(),
        borrow: info.reach.is_borrow(),
        depth: info.reach.depth(),
    }
}

// Refuses BadRow for the table, then BadRef for the reference, then BadRow for its row.
#[tactic(auto, using(crate::proofs::WellFormed::read_byte), unfolding(canon::specs::Answer::unless, canon::specs::Answer::at_position, canon::specs::Question::type_answer))]
pub fn canonical_abi(
    table: &[u32],
    n: u32,
    reference: u32,
) -> Result<TypeInfo, Refused<MemberPosition>>
    ensures { answer member_place type_info_means result ≡ type_answer table.now n reference }
{
    let Some(rows) = Rows::of(table, n) else {
        return Err(refused(Refusal::BadRow));
    };
    let info = read(rows, reference).map_err(refused)?;
    Ok(type_info(info))
}
