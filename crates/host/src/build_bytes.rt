// A build over bytes. Up to 64 words are built in a local table, whose rows are given to the lent one. For more, the lent table is decoded too, so
// that words that are not written stay.
ghost use Rattle.std.specs.Prelude.{◌≡◌, ◌*◌, ◌/◌, ◌≤◌, min, length, take};
ghost use Rattle.canon.specs.Table.{capacity};
ghost use Rattle.canon.specs.Description.{table_after};
ghost use Rattle.words.specs.Words.{whole_words, put_words};
ghost use Rattle.host.specs.Numbers.{build_number, build_call};
ghost use Rattle.host.specs.Bytes.{build_bytes, reads_of_bytes, table_bytes};
ghost use Rattle.host.specs.Local.{with_rows};

use crate::lent::decoded;
use crate::packing::{built_number, refused};
use crate::pick::TABLE_BYTES;
use crate::tables::lampughjata_build;
use build::{MAX_BYTES, MAX_WORDS, accepted, build};
use table::{DefinitionIndex, ROW_WORDS, TABLE_WORDS, capacity, give_row};
use types::Refusal;
use words::put_words;

// The most words of a description that is built in a local table.
const SHORT_WORDS: usize = 64;

const SHORT_BYTES: usize = 4 * SHORT_WORDS;

// A definition has two words or more.
const LOCAL_ROWS: usize = SHORT_WORDS / 2;

const LOCAL_WORDS: usize = LOCAL_ROWS * ROW_WORDS;

fn build_into(words: &[u32], table: &mut [u32], bytes: &mut [u8]) -> u64
    ensures value { result ≡ build_call words.now table.old }
    ensures table_after { (table.new ≡ table_after words.now table.old) × (length table.new ≡ length table.old) }
    ensures bytes_after { bytes.new ≡ put_words 0 (take (length bytes.old / 4) table.new) bytes.old }
{
    let answer = lampughjata_build(words, table);
    put_words(table, bytes);
    answer
}

fn build_long(words: &[u8], table: &mut [u8]) -> u64
    requires { (length words.now ≤ 65536) × (length table.old ≤ 65536) }
    ensures value { result ≡ build_call (whole_words words.now) (whole_words table.old) }
    ensures table_after { table.new ≡ put_words 0 (table_after (whole_words words.now) (whole_words table.old)) table.old }
{
    let mut ws = [0u32; MAX_WORDS];
    let mut ts = [0u32; TABLE_WORDS];
    build_into(decoded(words, &mut ws), decoded(table, &mut ts), table)
}

fn give_rows(table: &[u32], rows: u32, bytes: &mut [u8])
    ensures { bytes.new ≡ put_words 0 (with_rows table.now rows (whole_words bytes.old)) bytes.old }
{
    for i in 0..rows {
        give_row(table, DefinitionIndex(i), bytes);
    }
}

fn build_rows(words: &[u32], table: &mut [u32], bytes: &mut [u8]) -> u64
    requires { (length words.now ≤ 64) × (capacity (length table.old) ≡ min 32 (capacity (length bytes.old / 4))) }
    ensures value { result ≡ build_call words.now (whole_words bytes.old) }
    ensures bytes_after { bytes.new ≡ put_words 0 (table_after words.now (whole_words bytes.old)) bytes.old }
{
    let built = build(words, table);
    give_rows(table, accepted(built), bytes);
    built_number(built)
}

// Lends as many rows as the bytes have room for, and no more than a short description may ask for.
fn local_words(bytes: &[u8]) -> usize
    ensures { result ≡ 16 * min 32 (capacity (length bytes.now / 4)) }
{
    ROW_WORDS * capacity(bytes.len() / 4).min(LOCAL_ROWS)
}

fn build_short(words: &[u8], table: &mut [u8]) -> u64
    requires { length words.now ≤ 256 }
    ensures value { result ≡ build_call (whole_words words.now) (whole_words table.old) }
    ensures table_after { table.new ≡ put_words 0 (table_after (whole_words words.now) (whole_words table.old)) table.old }
{
    let mut ws = [0u32; SHORT_WORDS];
    let mut ts = [0u32; LOCAL_WORDS];
    let room = local_words(table);
    build_rows(decoded(words, &mut ws), &mut ts[..room], table)
}

// Refuses TooLong for the bytes, then Truncated for a length that is not a multiple of four, then as over words.
// No cell stands beyond the byte 65,536 of a table: a longer one is cut as in `ask_bytes`.
#[unsafe(no_mangle)]
pub extern "C" fn lampughjata_build_bytes(words: &[u8], table: &mut [u8]) -> u64
    ensures value { result ≡ build_number (build_bytes words.now table.old) (reads_of_bytes words.now table.old) }
    ensures table_after { table.new ≡ table_bytes words.now table.old }
{
    if words.len() > MAX_BYTES {
        return refused(Refusal::TooLong, 0);
    }
    if words.len() % 4 > 0 {
        return refused(Refusal::Truncated, 0);
    }
    if table.len() > TABLE_BYTES {
        return lampughjata_build_bytes(words, &mut table[..TABLE_BYTES]);
    }
    if words.len() > SHORT_BYTES {
        return build_long(words, table);
    }
    build_short(words, table)
}
