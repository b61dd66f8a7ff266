// Makes a signature of two lists.
ghost use Rattle.std.specs.Prelude.{◌≡◌, List};
ghost use Rattle.std.proofs.Math.Option.{Option};
ghost use Rattle.canon.specs.Answer.{ok};
ghost use Rattle.canon.specs.Question.{ask_two};
ghost use Rattle.canon.specs.Signature as canon;
ghost use Rattle.canon.specs.Signature.{flat_all};
ghost use Rattle.canon.specs.Types.{Core};
ghost use Rattle.types.specs.Means.{memory_of};
ghost use Rattle.table.specs.Means.{answer, member_place};
ghost use Rattle.signature.specs.Asked.{Makes};
ghost use Rattle.signature.specs.Means.{signature_means};
ghost use Rattle.signature.specs.Packs.{packed_answer};

use crate::lists::CleanList;
use crate::signatures::Signature;
use questions::gather_two;
use table::{MemberPosition, Refused};
use types::Memory;

// Gathers two lists, each in its memory, for `made` to make a signature of. Three slices that a call passes go through the stack, and the processor waits
// for them: so this and the three functions that ask by it are compiled into their callers.
#[inline(always)]
pub(crate) fn asked<F: FnOnce(CleanList, CleanList) -> Signature>(
    table: &[u32],
    n: u32,
    first_memory: Memory,
    first: &[u32],
    second_memory: Memory,
    second: &[u32],
    made: F,
) -> Result<Signature, Refused<MemberPosition>>
    requires { F.IsAlwaysCallable made }
    ensures { (k : Option (List Core) → Option (List Core) → canon.Signature) → Makes (F.post made) k → answer member_place signature_means result ≡ packed_answer (ask_two table.now n first.now second.now (λ is' js. ok (k (flat_all (memory_of first_memory) is') (flat_all (memory_of second_memory) js)))) }
{
    let (a, b) = gather_two(table, n, first_memory, first, second_memory, second)?;
    Ok(made(CleanList { list: a.flat }, CleanList { list: b.flat }))
}
