// The questions on layout, over bytes; they refuse as the calls over words do. A buffer that is lent to be written is decoded too, so that words that
// are not written stay.
ghost use Rattle.std.specs.Prelude.{◌≡◌, length, take, ◌/◌, ◌≤◌, min};
ghost use Rattle.canon.specs.Question.{type_answer, size_align_answer, offsets_after};
ghost use Rattle.canon.specs.Gaps.{room_of, gaps_after};
ghost use Rattle.words.specs.Words.{whole_words, put_words};
ghost use Rattle.host.specs.Bytes.{PlacesBytes};
ghost use Rattle.host.specs.Numbers.{memory_at, answer_number, chosen, type_words, layout_number, placement_call};

use crate::lent::decoded;
use crate::packing::refused;
use crate::pick::{LentRows, PICKED_WORDS, SHORT_LIST, SLOTS, TABLE_BYTES};
use crate::tables::{lampughjata_placement, lampughjata_size_align, lampughjata_type};
use questions::MOST_REFERENCES;
use table::{ROW_WORDS, TABLE_WORDS};
use types::Refusal;
use words::put_words;

// A list of at most so many references is decoded into smaller arrays: an array is cleared first, and the larger ones take longer than the list.
const MEDIUM_LIST: usize = 1024;

// One reference more than a list may have tells that it is too long.
const LONG_LIST: usize = MOST_REFERENCES + 1;

#[unsafe(no_mangle)]
pub extern "C" fn lampughjata_type_bytes(table: &[u8], rows: u32, reference: u32, k: u32) -> u64
    ensures { result ≡ answer_number (λ i. chosen k (type_words i)) (type_answer (whole_words table.now) rows reference) }
{
    let Some(lent) = LentRows::of(table, rows) else {
        return refused(Refusal::BadRow, 0);
    };
    let mut picked = [0u32; ROW_WORDS];
    let name = lent.pick_row(reference, &mut picked, 0);
    lampughjata_type(&picked, 1, name, k)
}

#[unsafe(no_mangle)]
pub extern "C" fn lampughjata_size_align_bytes(
    memory: u32,
    table: &[u8],
    rows: u32,
    reference: u32,
) -> u64
    ensures { result ≡ answer_number layout_number (size_align_answer (memory_at memory) (whole_words table.now) rows reference) }
{
    let Some(lent) = LentRows::of(table, rows) else {
        return refused(Refusal::BadRow, 0);
    };
    let mut picked = [0u32; ROW_WORDS];
    let name = lent.pick_row(reference, &mut picked, 0);
    lampughjata_size_align(memory, &picked, 1, name)
}

fn place_into(
    memory: u32,
    table: &[u32],
    rows: u32,
    references: &[u32],
    offsets: &mut [u32],
    gaps: &mut [u32],
    offset_bytes: &mut [u8],
    gap_bytes: &mut [u8],
) -> u64
    ensures value { result ≡ placement_call (memory_at memory) table.now rows references.now (room_of offsets.old gaps.old) }
    ensures offsets_after { (offsets.new ≡ offsets_after (memory_at memory) table.now rows references.now (room_of offsets.old gaps.old) offsets.old) × (length offsets.new ≡ length offsets.old) }
    ensures gaps_after { (gaps.new ≡ gaps_after (memory_at memory) table.now rows references.now (room_of offsets.old gaps.old) gaps.old) × (length gaps.new ≡ length gaps.old) }
    ensures offset_bytes_after { offset_bytes.new ≡ put_words 0 (take (length offset_bytes.old / 4) offsets.new) offset_bytes.old }
    ensures gap_bytes_after { gap_bytes.new ≡ put_words 0 (take (length gap_bytes.old / 4) gaps.new) gap_bytes.old }
{
    let answer = lampughjata_placement(memory, table, rows, references, offsets, gaps);
    put_words(offsets, offset_bytes);
    put_words(gaps, gap_bytes);
    answer
}

// Decodes into arrays of N words, one for each reference or one more than a list may have: no offset and no gap stands beyond.
fn place_decoded<const N: usize>(
    memory: u32,
    table: &[u8],
    rows: u32,
    references: &[u8],
    offsets: &mut [u8],
    gaps: &mut [u8],
) -> u64
    requires { (min 16385 (length references.now / 4) ≤ N) × (N ≤ 16385) }
    ensures { PlacesBytes (memory_at memory) table.now rows references.now offsets.old gaps.old result offsets.new gaps.new }
{
    let mut ts = [0u32; TABLE_WORDS];
    let mut rs = [0u32; N];
    let mut os = [0u32; N];
    let mut gs = [0u32; N];
    place_into(
        memory,
        decoded(table, &mut ts),
        rows,
        decoded(references, &mut rs),
        decoded(offsets, &mut os),
        decoded(gaps, &mut gs),
        offsets,
        gaps,
    )
}

// No offset and no gap stands beyond the word 16 of a buffer.
fn place_picked(
    memory: u32,
    table: &[u8],
    rows: u32,
    references: &[u8],
    offsets: &mut [u8],
    gaps: &mut [u8],
) -> u64
    requires { length references.now / 4 ≤ 16 }
    ensures { PlacesBytes (memory_at memory) table.now rows references.now offsets.old gaps.old result offsets.new gaps.new }
{
    let Some(lent) = LentRows::of(table, rows) else {
        return refused(Refusal::BadRow, 0);
    };
    let mut picked = [0u32; PICKED_WORDS];
    let mut rs = [0u32; SHORT_LIST];
    let mut os = [0u32; SHORT_LIST];
    let mut gs = [0u32; SHORT_LIST];
    let names = lent.pick_rows(references, &mut picked, 0, &mut rs);
    place_into(
        memory,
        &picked,
        SLOTS,
        names,
        decoded(offsets, &mut os),
        decoded(gaps, &mut gs),
        offsets,
        gaps,
    )
}

// A longer table is cut as in `ask_bytes`.
#[unsafe(no_mangle)]
pub extern "C" fn lampughjata_placement_bytes(
    memory: u32,
    table: &[u8],
    rows: u32,
    references: &[u8],
    offsets: &mut [u8],
    gaps: &mut [u8],
) -> u64
    ensures value { result ≡ placement_call (memory_at memory) (whole_words table.now) rows (whole_words references.now) (room_of (whole_words offsets.old) (whole_words gaps.old)) }
    ensures offsets_after { offsets.new ≡ put_words 0 (offsets_after (memory_at memory) (whole_words table.now) rows (whole_words references.now) (room_of (whole_words offsets.old) (whole_words gaps.old)) (whole_words offsets.old)) offsets.old }
    ensures gaps_after { gaps.new ≡ put_words 0 (gaps_after (memory_at memory) (whole_words table.now) rows (whole_words references.now) (room_of (whole_words offsets.old) (whole_words gaps.old)) (whole_words gaps.old)) gaps.old }
{
    if table.len() > TABLE_BYTES {
        return lampughjata_placement_bytes(
            memory,
            &table[..TABLE_BYTES],
            rows,
            references,
            offsets,
            gaps,
        );
    }
    let count = references.len() / 4;
    if count <= SHORT_LIST {
        return place_picked(memory, table, rows, references, offsets, gaps);
    }
    if count <= MEDIUM_LIST {
        return place_decoded::<MEDIUM_LIST>(memory, table, rows, references, offsets, gaps);
    }
    place_decoded::<LONG_LIST>(memory, table, rows, references, offsets, gaps)
}
