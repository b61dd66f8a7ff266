// These calls build a table and ask it for types and layouts, over words. Of a bad reference BadRef comes before BadRow.
ghost use Rattle.std.specs.Prelude.{◌≡◌};
ghost use Rattle.canon.specs.Description.{table_after};
ghost use Rattle.canon.specs.Question.{type_answer, size_align_answer, offsets_after};
ghost use Rattle.canon.specs.Gaps.{room_of, gaps_after};
ghost use Rattle.host.specs.Numbers.{memory_at, answer_number, chosen, type_words, layout_number, build_call, placement_call};

use crate::given::memory_at;
use crate::packing::{built_number, layout_number, placement_number, type_number};
use questions::{canonical_abi, placement, size_align};

// Refuses TooLong; then for each definition NoRoom, BadKind, Truncated, BadCount, BadRef, TooDeep, TooLarge in either memory.
#[unsafe(no_mangle)]
pub extern "C" fn lampughjata_build(words: &[u32], table: &mut [u32]) -> u64
    ensures value { result ≡ build_call words.now table.old }
    ensures table_after { table.new ≡ table_after words.now table.old }
{
    built_number(build::build(words, table))
}

// Refuses BadRow for the table, then a bad reference.
#[unsafe(no_mangle)]
pub extern "C" fn lampughjata_type(table: &[u32], rows: u32, reference: u32, k: u32) -> u64
    ensures { result ≡ answer_number (λ i. chosen k (type_words i)) (type_answer table.now rows reference) }
{
    type_number(canonical_abi(table, rows, reference), k)
}

// Refuses BadRow for the table, then a bad reference.
#[unsafe(no_mangle)]
pub extern "C" fn lampughjata_size_align(
    memory: u32,
    table: &[u32],
    rows: u32,
    reference: u32,
) -> u64
    ensures { result ≡ answer_number layout_number (size_align_answer (memory_at memory) table.now rows reference) }
{
    layout_number(size_align(memory_at(memory), table, rows, reference))
}

// Refuses TooLong, then BadRow for the table, then NoRoom for either buffer, then the first bad reference, then TooLarge in its memory.
#[unsafe(no_mangle)]
#[tactic(auto, using(crate::proofs::Short::placement_short, canon::proofs::Costs::placement_few, crate::proofs::Short::after_short))]
pub extern "C" fn lampughjata_placement(
    memory: u32,
    table: &[u32],
    rows: u32,
    references: &[u32],
    offsets: &mut [u32],
    gaps: &mut [u32],
) -> u64
    ensures value { result ≡ placement_call (memory_at memory) table.now rows references.now (room_of offsets.old gaps.old) }
    ensures offsets_after { offsets.new ≡ offsets_after (memory_at memory) table.now rows references.now (room_of offsets.old gaps.old) offsets.old }
    ensures gaps_after { gaps.new ≡ gaps_after (memory_at memory) table.now rows references.now (room_of offsets.old gaps.old) gaps.old }
{
    placement_number(placement(memory_at(memory), table, rows, references, offsets, gaps))
}
