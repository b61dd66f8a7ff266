// These calls answer for a record of infos, each five words of four bytes (docs/HOST.md). The call over bytes refuses as the one over words does.
ghost use Rattle.std.specs.Prelude.{◌≡◌};
ghost use Rattle.types.specs.Leaves.{record_answer};
ghost use Rattle.types.specs.Means.{leaf, abi_means};
ghost use Rattle.types.specs.States.{record_means, no_fields, add_fields};
ghost use Rattle.words.specs.Words.{whole_words};
ghost use Rattle.host.specs.Infos.{lent_infos};
ghost use Rattle.host.specs.Numbers.{leaf_number, chosen, abi_words};

use crate::lent::{INFO_WORDS, Lent, info_at};
use crate::packing::info_number;
use types::{CanonicalAbiInfo, RecordState, Refusal};

// A record of so many infos over bytes is lent as a slice, and no other: to gather infos in an array takes more time than to add each in its turn.
const LENT_RECORD: usize = 2;

#[tactic(auto, using(crate::proofs::Several::several_more, crate::proofs::Several::no_more), unfolding(types::specs::States::add_fields))]
fn fields_of<W: Lent>(words: W) -> RecordState
    ensures { record_means result ≡ add_fields no_fields (lent_infos (W.words words)) }
{
    let mut state = RecordState::start();
    for j in 0..words.count() / INFO_WORDS {
        state = state.field(info_at(words, INFO_WORDS * j));
    }
    state
}

#[tactic(auto, using(types::proofs::RecordLaws::record_answer_lem))]
fn record_of<W: Lent>(words: W) -> Result<CanonicalAbiInfo, Refusal>
    ensures { leaf abi_means result ≡ record_answer (lent_infos (W.words words)) }
{
    CanonicalAbiInfo::record(fields_of(words))
}

#[tactic(auto, unfolding(crate::specs::Infos::several))]
fn record_of_bytes(bytes: &[u8]) -> Result<CanonicalAbiInfo, Refusal>
    ensures { leaf abi_means result ≡ record_answer (lent_infos (whole_words bytes.now)) }
{
    if bytes.count() / INFO_WORDS == LENT_RECORD {
        CanonicalAbiInfo::record_static(&[info_at(bytes, 0), info_at(bytes, INFO_WORDS)])
    } else {
        record_of(bytes)
    }
}

// Refuses BadRow if any info is bad, then TooLarge for a start, an end or the size in either memory.
#[unsafe(no_mangle)]
pub extern "C" fn lampughjata_record(infos: &[u32], k: u32) -> u64
    ensures { result ≡ leaf_number (λ a. chosen k (abi_words a)) (record_answer (lent_infos infos.now)) }
{
    info_number(record_of(infos), k)
}

#[unsafe(no_mangle)]
pub extern "C" fn lampughjata_record_bytes(infos: &[u8], k: u32) -> u64
    ensures { result ≡ leaf_number (λ a. chosen k (abi_words a)) (record_answer (lent_infos (whole_words infos.now))) }
{
    info_number(record_of_bytes(infos), k)
}
