// Answers a question on two lists that is given as a value, for a caller that decodes the lists in one place.
ghost use Rattle.std.specs.Prelude.{◌≡◌};
ghost use Rattle.table.specs.Means.{answer, member_place};
ghost use Rattle.signature.specs.Means.{signature_means, question_answer};
ghost use Rattle.signature.specs.Packs.{packed_answer};

use crate::functype::{Context, flatten_functype};
use crate::side::Side;
use crate::signatures::{Signature, async_return_signature, async_start_signature};
use table::{MemberPosition, Refused};

// Each has what the function of its name takes beside the table and the lists: a start lower then lift, a return lift then lower.
#[derive(Clone, Copy)]
pub enum SignatureQuestion {
    AsyncStart(Side, Side),
    AsyncReturn(Side, Side),
    Functype(Context, Side, bool),
}

// Refuses as the function that the question names.
pub fn signature_of(
    question: SignatureQuestion,
    table: &[u32],
    n: u32,
    first: &[u32],
    second: &[u32],
) -> Result<Signature, Refused<MemberPosition>>
    ensures { answer member_place signature_means result ≡ packed_answer (question_answer question table.now n first.now second.now) }
{
    match question {
        SignatureQuestion::AsyncStart(lower, lift) => {
            async_start_signature(table, n, lower, first, lift, second)
        }
        SignatureQuestion::AsyncReturn(lift, lower) => {
            async_return_signature(table, n, lift, first, lower, second)
        }
        SignatureQuestion::Functype(context, side, callback) => {
            flatten_functype(context, side, callback, table, n, first, second)
        }
    }
}
