// These calls flatten references and make signatures, over bytes. Each refuses as the call over words does (signatures.rt).
ghost use Rattle.std.specs.Prelude.{◌≡◌};
ghost use Rattle.canon.specs.Question.{borrow_answer};
ghost use Rattle.canon.specs.Signature.{flatten_answer, lowering_answer, lifting_answer, async_start_answer, async_return_answer};
ghost use Rattle.canon.specs.Functype.{functype_answer};
ghost use Rattle.signature.specs.Packs.{packed_flattened, packed_answer};
ghost use Rattle.words.specs.Words.{whole_words};
ghost use Rattle.host.specs.Numbers.{memory_at, is_set, side_at, context_at, answer_number, yes_number, chosen, flattened_number, signature_lists};

use crate::given::{context_at, side_at};
use crate::question::{Question, ask_bytes};
use signature::SignatureQuestion;

#[unsafe(no_mangle)]
pub extern "C" fn lampughjata_flatten_bytes(
    memory: u32,
    max: u32,
    table: &[u8],
    rows: u32,
    references: &[u8],
) -> u64
    ensures { result ≡ answer_number flattened_number (packed_flattened (flatten_answer (memory_at memory) max (whole_words table.now) rows (whole_words references.now))) }
{
    ask_bytes(Question::Flatten(memory, max), table, rows, references, &[])
}

#[unsafe(no_mangle)]
pub extern "C" fn lampughjata_lowering_bytes(
    memory: u32,
    async_: u32,
    table: &[u8],
    rows: u32,
    references: &[u8],
) -> u64
    ensures { result ≡ answer_number flattened_number (packed_flattened (lowering_answer (side_at memory async_) (whole_words table.now) rows (whole_words references.now))) }
{
    ask_bytes(
        Question::Lowering(memory, async_),
        table,
        rows,
        references,
        &[],
    )
}

#[unsafe(no_mangle)]
pub extern "C" fn lampughjata_lifting_bytes(
    memory: u32,
    async_: u32,
    table: &[u8],
    rows: u32,
    references: &[u8],
) -> u64
    ensures { result ≡ answer_number flattened_number (packed_flattened (lifting_answer (side_at memory async_) (whole_words table.now) rows (whole_words references.now))) }
{
    ask_bytes(
        Question::Lifting(memory, async_),
        table,
        rows,
        references,
        &[],
    )
}

#[unsafe(no_mangle)]
pub extern "C" fn lampughjata_async_start_bytes(
    lower_memory: u32,
    lower_async: u32,
    lift_memory: u32,
    table: &[u8],
    rows: u32,
    lowered: &[u8],
    lifted: &[u8],
    k: u32,
) -> u64
    ensures { result ≡ answer_number (λ s. chosen k (signature_lists s)) (packed_answer (async_start_answer (whole_words table.now) rows (side_at lower_memory lower_async) (whole_words lowered.now) (side_at lift_memory 0) (whole_words lifted.now))) }
{
    let lower = side_at(lower_memory, lower_async);
    let asked = SignatureQuestion::AsyncStart(lower, side_at(lift_memory, 0));
    ask_bytes(Question::Signature(asked, k), table, rows, lowered, lifted)
}

#[unsafe(no_mangle)]
pub extern "C" fn lampughjata_async_return_bytes(
    lift_memory: u32,
    lift_async: u32,
    lower_memory: u32,
    lower_async: u32,
    table: &[u8],
    rows: u32,
    lifted: &[u8],
    lowered: &[u8],
    k: u32,
) -> u64
    ensures { result ≡ answer_number (λ s. chosen k (signature_lists s)) (packed_answer (async_return_answer (whole_words table.now) rows (side_at lift_memory lift_async) (whole_words lifted.now) (side_at lower_memory lower_async) (whole_words lowered.now))) }
{
    let lift = side_at(lift_memory, lift_async);
    let lower = side_at(lower_memory, lower_async);
    let asked = SignatureQuestion::AsyncReturn(lift, lower);
    ask_bytes(Question::Signature(asked, k), table, rows, lifted, lowered)
}

#[unsafe(no_mangle)]
pub extern "C" fn lampughjata_functype_bytes(
    memory: u32,
    async_: u32,
    lower: u32,
    callback: u32,
    table: &[u8],
    rows: u32,
    params: &[u8],
    results: &[u8],
    k: u32,
) -> u64
    ensures { result ≡ answer_number (λ s. chosen k (signature_lists s)) (packed_answer (functype_answer (whole_words table.now) rows (context_at lower) (side_at memory async_) (is_set callback) (whole_words params.now) (whole_words results.now))) }
{
    let context = context_at(lower);
    let side = side_at(memory, async_);
    let asked = SignatureQuestion::Functype(context, side, callback != 0);
    ask_bytes(Question::Signature(asked, k), table, rows, params, results)
}

#[unsafe(no_mangle)]
pub extern "C" fn lampughjata_contains_borrow_bytes(
    table: &[u8],
    rows: u32,
    references: &[u8],
) -> u64
    ensures { result ≡ answer_number yes_number (borrow_answer (whole_words table.now) rows (whole_words references.now)) }
{
    ask_bytes(Question::ContainsBorrow, table, rows, references, &[])
}
