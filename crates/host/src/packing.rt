// Packs each answer into one number; docs/HOST.md says which bits it takes.
ghost use Rattle.std.specs.Prelude.{◌≡◌, ◌≤◌, ◌<◌, ℕ, length, MatchResult};
ghost use Rattle.std.specs.Result.{ForOk};
ghost use Rattle.canon.specs.Row.{count_word};
ghost use Rattle.types.specs.Means.{leaf, number_of, rounding_of, count_means, bytes_of, layout_means, abi_means, variant_means, field_means};
ghost use Rattle.flat_types.specs.Lists.{words};
ghost use Rattle.table.specs.Means.{answer, definition_place, member_place};
ghost use Rattle.build.specs.Means.{built_means, built_reads};
ghost use Rattle.questions.specs.Means.{type_info_means, whole_means, whole_reads, after_means};
ghost use Rattle.signature.specs.Means.{flattened_means, signature_means};
ghost use Rattle.host.specs.Numbers.{refusal_number, answer_number, yes_number, leaf_number, itself, chosen, abi_words, inner_words, field_words, rounding_number, type_words, layout_number, build_number, placement_number, list_number, flattened_number, signature_lists};
ghost use Rattle.host.specs.Short.{ShortList, ShortFlat, ShortSignature, ShortLayout, ShortGap, IfAnswered};

use crate::lent::INFO_WORDS;
use build::Built;
use flat_types::FlatList;
use questions::{TypeInfo, Whole};
use signature::Signature;
use table::{DefinitionIndex, MemberPosition, Refused};
use types::{
    CanonicalAbiInfo, DiscriminantSize, Layout, NO_FLAT_COUNT, NextField, Refusal, Rounded,
    VariantInfo,
};

// A refusal's number starts at bit 56, a list's count at bit 40, an alignment at bit 32, and so do the bytes that rounding skips.
const REFUSAL: u64 = 0x0100_0000_0000_0000;

const COUNT: u64 = 0x0100_0000_0000;

const ALIGN: u64 = 0x0001_0000_0000;

const SKIPPED: u64 = 0x0001_0000_0000;

// The rows that a build read back are told from bit 32 on, those of a placement from bit 40 on, behind the gap after its last member.
const BUILD_READS: u64 = 0x0001_0000_0000;

const PLACEMENT_READS: u64 = 0x0100_0000_0000;

const AFTER: u64 = 0x0010_0000_0000;

// Bit 55 alone says "memory", in place of a list.
const IN_MEMORY: u64 = 0x0080_0000_0000_0000;

pub(crate) fn refused(why: Refusal, at: u32) -> u64
    ensures { result ≡ refusal_number (number_of why) at }
{
    REFUSAL * u64::from(why.number()) + u64::from(at)
}

// What an answer may have in place of a value.
trait Refuses {
    ghost number: { Self → ℕ };

    fn number(self) -> u64
        ensures { result ≡ number self };
}

// A leaf's refusal has no position.
impl Refuses for Refusal {
    ghost number = { λ why. refusal_number (number_of why) 0 };

    fn number(self) -> u64 {
        refused(self, 0)
    }
}

impl Refuses for Refused<DefinitionIndex> {
    ghost number = { λ r. refusal_number (number_of r.why) (definition_place r.at) };

    fn number(self) -> u64 {
        refused(self.why, self.at.0)
    }
}

impl Refuses for Refused<MemberPosition> {
    ghost number = { λ r. refusal_number (number_of r.why) (member_place r.at) };

    fn number(self) -> u64 {
        refused(self.why, self.at.0)
    }
}

fn packed<T, E: Refuses, F: FnOnce(T) -> u64>(outcome: Result<T, E>, value: F) -> u64
    requires { ForOk outcome (F.pre value) }
    ensures { MatchResult outcome (λ a. F.post value a result) (λ e. result ≡ E.number e) }
{
    outcome.map_or_else(E::number, value)
}

// Chooses the number k of these, the last for any k above.
#[tactic(auto, unfolding(crate::specs::Numbers::chosen))]
fn choose(words: &[u32], k: u32) -> u64
    requires { 0 < length words.now }
    ensures { result ≡ chosen k words.now }
{
    let last = words.len() - 1;
    u64::from(words[last.min(k as usize)])
}

pub(crate) fn rounded_number(outcome: Result<Rounded<u32>, Refusal>) -> u64
    ensures { result ≡ leaf_number rounding_number (leaf rounding_of outcome) }
{
    packed(
        outcome,
        |up| SKIPPED * u64::from(up.skipped) + u64::from(up.value),
    )
}

pub(crate) fn flat_number(count: Option<u8>) -> u32
    ensures { result ≡ count_word (count_means count) }
{
    count.map_or(NO_FLAT_COUNT, u32::from)
}

pub(crate) fn discriminant_number(outcome: Result<DiscriminantSize, Refusal>) -> u64
    ensures { result ≡ leaf_number itself (leaf bytes_of outcome) }
{
    packed(outcome, |size| u64::from(size.byte_size()))
}

// Gives the five numbers of an info, in the order of words 1 to 5 of a row.
fn info_words(info: CanonicalAbiInfo) -> [u32; INFO_WORDS]
    ensures { result ≡ abi_words (abi_means info) }
{
    [
        info.size32,
        info.align32,
        info.size64,
        info.align64,
        flat_number(info.flat_count),
    ]
}

pub(crate) fn info_number(outcome: Result<CanonicalAbiInfo, Refusal>, k: u32) -> u64
    ensures { result ≡ leaf_number (λ a. chosen k (abi_words a)) (leaf abi_means outcome) }
{
    packed(outcome, |info| choose(&info_words(info), k))
}

// Packs the numbers that a variant has beside those of its info.
pub(crate) fn inner_number(outcome: Result<(VariantInfo, CanonicalAbiInfo), Refusal>, k: u32) -> u64
    ensures { result ≡ leaf_number (λ v. chosen k (inner_words v)) (leaf variant_means outcome) }
{
    packed(outcome, |(variant, _)| {
        let words = [
            variant.size.byte_size(),
            variant.payload_offset32,
            variant.payload_offset64,
        ];
        choose(&words, k)
    })
}

pub(crate) fn field_number(outcome: Result<NextField, Refusal>, k: u32) -> u64
    ensures { result ≡ leaf_number (λ f. chosen k (field_words f)) (leaf field_means outcome) }
{
    packed(
        outcome,
        |field| choose(&[field.offset, field.end, field.skipped], k),
    )
}

pub(crate) fn built_number(outcome: Result<Built, Refused<DefinitionIndex>>) -> u64
    ensures { result ≡ build_number (built_means outcome) (built_reads outcome) }
{
    packed(
        outcome,
        |built| BUILD_READS * u64::from(built.reads) + u64::from(built.rows),
    )
}

// Gives the five numbers of an info, the two flat words, the borrow and the depth, in the order of docs/HOST.md.
fn type_words(info: TypeInfo) -> [u32; 9]
    ensures { result ≡ type_words (type_info_means info) }
{
    let [size32, align32, size64, align64, flat] = info_words(info.abi);
    [
        size32,
        align32,
        size64,
        align64,
        flat,
        info.flat32,
        info.flat64,
        u32::from(info.borrow),
        info.depth,
    ]
}

pub(crate) fn type_number(outcome: Result<TypeInfo, Refused<MemberPosition>>, k: u32) -> u64
    ensures { result ≡ answer_number (λ i. chosen k (type_words i)) (answer member_place type_info_means outcome) }
{
    packed(outcome, |info| choose(&type_words(info), k))
}

fn packed_layout(layout: Layout) -> u64
    ensures { result ≡ layout_number (layout_means layout) }
{
    ALIGN * u64::from(layout.align) + u64::from(layout.size)
}

pub(crate) fn layout_number(outcome: Result<Layout, Refused<MemberPosition>>) -> u64
    ensures { result ≡ answer_number layout_number (answer member_place layout_means outcome) }
{
    packed(outcome, packed_layout)
}

#[tactic(auto, unfolding(canon::specs::Answer::then))]
pub(crate) fn placement_number(outcome: Result<Whole, Refused<MemberPosition>>) -> u64
    requires { IfAnswered ShortLayout (answer member_place whole_means outcome) × (whole_reads outcome ≤ 16384) × IfAnswered ShortGap (after_means outcome) }
    ensures { result ≡ placement_number (answer member_place whole_means outcome) (whole_reads outcome) (after_means outcome) }
{
    packed(outcome, |whole| {
        PLACEMENT_READS * u64::from(whole.reads)
            + AFTER * u64::from(whole.after)
            + packed_layout(whole.layout)
    })
}

fn list_number(list: FlatList) -> u64
    requires { ShortList (words list) }
    ensures { result ≡ list_number (words list) }
{
    COUNT * u64::from(list.count) + list.types
}

pub(crate) fn flattened_number(outcome: Result<Option<FlatList>, Refused<MemberPosition>>) -> u64
    requires { IfAnswered ShortFlat (answer member_place flattened_means outcome) }
    ensures { result ≡ answer_number flattened_number (answer member_place flattened_means outcome) }
{
    packed(
        outcome,
        |flattened| flattened.map_or(IN_MEMORY, list_number),
    )
}

#[tactic(auto, using(crate::proofs::Chosen::chosen_first, crate::proofs::Chosen::chosen_second))]
pub(crate) fn signature_number(outcome: Result<Signature, Refused<MemberPosition>>, k: u32) -> u64
    requires { IfAnswered ShortSignature (answer member_place signature_means outcome) }
    ensures { result ≡ answer_number (λ s. chosen k (signature_lists s)) (answer member_place signature_means outcome) }
{
    packed(outcome, |signature| {
        list_number(if k == 0 {
            signature.params
        } else {
            signature.results
        })
    })
}

pub(crate) fn borrow_number(outcome: Result<bool, Refused<MemberPosition>>) -> u64
    ensures { result ≡ answer_number yes_number (answer member_place (λ b. b) outcome) }
{
    packed(outcome, u64::from)
}
