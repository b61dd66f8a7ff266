// These calls answer for a variant of cases, each six words of four bytes; the first five of its numbers are the info's (docs/HOST.md). The call over
// bytes refuses as the one over words does.
ghost use Rattle.std.specs.Prelude.{◌≡◌, ◌+◌, ◌≤◌, length};
ghost use Rattle.types.specs.Leaves.{variant_answer};
ghost use Rattle.types.specs.States.{cases_means, no_cases, add_case, add_cases};
ghost use Rattle.words.specs.Words.{whole_words};
ghost use Rattle.host.specs.Infos.{case_at, lent_cases};
ghost use Rattle.host.specs.Numbers.{leaf_number, chosen, variant_words};

use crate::lent::{INFO_WORDS, Lent, info_at};
use crate::packing::{info_number, inner_number};
use types::{CanonicalAbiInfo, VariantInfo, VariantState};

// A case is whether it has a payload, then its info.
const CASE_WORDS: usize = 1 + INFO_WORDS;

// A variant's own numbers follow those of its info.
const FIRST_INNER: u32 = INFO_WORDS as u32;

#[tactic(auto, unfolding(crate::specs::Infos::case_at))]
fn add_case<W: Lent>(state: VariantState, words: W, at: usize) -> VariantState
    requires { at + 6 ≤ length (W.words words) }
    ensures { cases_means result ≡ add_case (cases_means state) (case_at (W.words words) at) }
{
    if words.word(at) == 0 {
        state.bare()
    } else {
        state.payload(info_at(words, at + 1))
    }
}

#[tactic(auto, using(crate::proofs::Several::several_more, crate::proofs::Several::no_more), unfolding(types::specs::States::add_cases))]
fn cases_of<W: Lent>(words: W) -> VariantState
    ensures { cases_means result ≡ add_cases no_cases (lent_cases (W.words words)) }
{
    let mut state = VariantState::start();
    for j in 0..words.count() / CASE_WORDS {
        state = add_case(state, words, CASE_WORDS * j);
    }
    state
}

#[inline(always)]
fn variant_number<W: Lent>(cases: W, k: u32) -> u64
    ensures { result ≡ leaf_number (λ v. chosen k (variant_words v)) (variant_answer (lent_cases (W.words cases))) }
{
    let state = cases_of(cases);
    if k < FIRST_INNER {
        info_number(CanonicalAbiInfo::variant(state), k)
    } else {
        inner_number(VariantInfo::new(state), k - FIRST_INNER)
    }
}

// Refuses BadRow if any info is bad, then BadCount for no case, then TooLarge in either memory.
#[unsafe(no_mangle)]
pub extern "C" fn lampughjata_variant(cases: &[u32], k: u32) -> u64
    ensures { result ≡ leaf_number (λ v. chosen k (variant_words v)) (variant_answer (lent_cases cases.now)) }
{
    variant_number(cases, k)
}

#[unsafe(no_mangle)]
pub extern "C" fn lampughjata_variant_bytes(cases: &[u8], k: u32) -> u64
    ensures { result ≡ leaf_number (λ v. chosen k (variant_words v)) (variant_answer (lent_cases (whole_words cases.now))) }
{
    variant_number(cases, k)
}
