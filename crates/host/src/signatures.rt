// These calls flatten references and make signatures, over words. Of a bad reference BadRef comes before BadRow.
ghost use Rattle.std.specs.Prelude.{◌≡◌};
ghost use Rattle.canon.specs.Question.{borrow_answer};
ghost use Rattle.canon.specs.Signature.{flatten_answer, lowering_answer, lifting_answer, async_start_answer, async_return_answer};
ghost use Rattle.canon.specs.Functype.{functype_answer};
ghost use Rattle.signature.specs.Packs.{packed_flattened, packed_answer};
ghost use Rattle.host.specs.Numbers.{memory_at, is_set, side_at, context_at, answer_number, yes_number, chosen, flattened_number, signature_lists};

use crate::given::{context_at, memory_at, side_at};
use crate::packing::{borrow_number, flattened_number, signature_number};
use signature::{
    async_return_signature, async_start_signature, contains_borrow_resource, flatten_functype,
    flatten_lifting_types, flatten_lowering_types, flatten_types,
};

// Refuses TooLong, then BadRow for the table, then BadCount for a maximum above 16, then the first bad reference.
#[unsafe(no_mangle)]
#[tactic(auto, using(crate::proofs::Short::flatten_short))]
pub extern "C" fn lampughjata_flatten(
    memory: u32,
    max: u32,
    table: &[u32],
    rows: u32,
    references: &[u32],
) -> u64
    ensures { result ≡ answer_number flattened_number (packed_flattened (flatten_answer (memory_at memory) max table.now rows references.now)) }
{
    flattened_number(flatten_types(memory_at(memory), max, table, rows, references))
}

// Refuses TooLong, then BadRow for the table, then the first bad reference.
#[unsafe(no_mangle)]
#[tactic(auto, using(crate::proofs::Short::flatten_short))]
pub extern "C" fn lampughjata_lowering(
    memory: u32,
    async_: u32,
    table: &[u32],
    rows: u32,
    references: &[u32],
) -> u64
    ensures { result ≡ answer_number flattened_number (packed_flattened (lowering_answer (side_at memory async_) table.now rows references.now)) }
{
    flattened_number(flatten_lowering_types(side_at(memory, async_), table, rows, references))
}

// Refuses TooLong, then BadRow for the table, then the first bad reference.
#[unsafe(no_mangle)]
#[tactic(auto, using(crate::proofs::Short::flatten_short))]
pub extern "C" fn lampughjata_lifting(
    memory: u32,
    async_: u32,
    table: &[u32],
    rows: u32,
    references: &[u32],
) -> u64
    ensures { result ≡ answer_number flattened_number (packed_flattened (lifting_answer (side_at memory async_) table.now rows references.now)) }
{
    flattened_number(flatten_lifting_types(side_at(memory, async_), table, rows, references))
}

// Refuses TooLong for either list, then BadRow for the table, then the first bad reference of lower's, then of lift's.
#[unsafe(no_mangle)]
#[tactic(auto, using(crate::proofs::Short::start_short))]
pub extern "C" fn lampughjata_async_start(
    lower_memory: u32,
    lower_async: u32,
    lift_memory: u32,
    table: &[u32],
    rows: u32,
    lowered: &[u32],
    lifted: &[u32],
    k: u32,
) -> u64
    ensures { result ≡ answer_number (λ s. chosen k (signature_lists s)) (packed_answer (async_start_answer table.now rows (side_at lower_memory lower_async) lowered.now (side_at lift_memory 0) lifted.now)) }
{
    let lower = side_at(lower_memory, lower_async);
    // Whether lift is async plays no part in a start: 0 says that it is not.
    let lift = side_at(lift_memory, 0);
    signature_number(
        async_start_signature(table, rows, lower, lowered, lift, lifted),
        k,
    )
}

// Refuses TooLong for either list, then BadRow for the table, then the first bad reference of lift's, then of lower's.
#[unsafe(no_mangle)]
#[tactic(auto, using(crate::proofs::Short::return_short))]
pub extern "C" fn lampughjata_async_return(
    lift_memory: u32,
    lift_async: u32,
    lower_memory: u32,
    lower_async: u32,
    table: &[u32],
    rows: u32,
    lifted: &[u32],
    lowered: &[u32],
    k: u32,
) -> u64
    ensures { result ≡ answer_number (λ s. chosen k (signature_lists s)) (packed_answer (async_return_answer table.now rows (side_at lift_memory lift_async) lifted.now (side_at lower_memory lower_async) lowered.now)) }
{
    let lift = side_at(lift_memory, lift_async);
    let lower = side_at(lower_memory, lower_async);
    signature_number(
        async_return_signature(table, rows, lift, lifted, lower, lowered),
        k,
    )
}

// Refuses TooLong for either list, then BadRow for the table, then the first bad reference of the parameters, then of the results.
#[unsafe(no_mangle)]
#[tactic(auto, using(crate::proofs::Short::functype_answers_short))]
pub extern "C" fn lampughjata_functype(
    memory: u32,
    async_: u32,
    lower: u32,
    callback: u32,
    table: &[u32],
    rows: u32,
    params: &[u32],
    results: &[u32],
    k: u32,
) -> u64
    ensures { result ≡ answer_number (λ s. chosen k (signature_lists s)) (packed_answer (functype_answer table.now rows (context_at lower) (side_at memory async_) (is_set callback) params.now results.now)) }
{
    let context = context_at(lower);
    let side = side_at(memory, async_);
    // A callback is 0 for none, any other number for one.
    let answer = flatten_functype(context, side, callback != 0, table, rows, params, results);
    signature_number(answer, k)
}

// Refuses TooLong, then BadRow for the table, then the first bad reference.
#[unsafe(no_mangle)]
pub extern "C" fn lampughjata_contains_borrow(table: &[u32], rows: u32, references: &[u32]) -> u64
    ensures { result ≡ answer_number yes_number (borrow_answer table.now rows references.now) }
{
    borrow_number(contains_borrow_resource(table, rows, references))
}
