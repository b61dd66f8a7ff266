// Reads the head of a definition: its kind, its count, where its references stand and where the next definition begins. Nothing that the
// body says is tested here: neither a count nor a reference.
#![tactic(auto)]

ghost use Rattle.std.specs.Prelude.{◌≡◌, ◌*◌, ◌/◌, ◌%◌, ◌^◌, ◌≤◌, length, MatchResult};
ghost use Rattle.std.proofs.Math.Option.{none, some};
ghost use Rattle.canon.specs.Description.{kind_of};
ghost use Rattle.head.specs.Means.{kind_means, heading_means};
ghost use Rattle.types.specs.Means.{leaf};
ghost use Rattle.canon.specs.Types.{kind_word};
ghost use Rattle.canon.specs.Description.{shape_of, body_length};
ghost use Rattle.types.specs.declared.refusal.Refusal.TheVariants.{BadKind};
ghost use Rattle.head.specs.Heads.{before, behind, body_at, head_at};

use types::Refusal;

// The discriminants are the kind words of 01, which are the first words of rows too.
#[derive(Clone, Copy)]
pub enum Kind {
    Record = 1,
    Variant = 2,
    List = 3,
    Tuple = 4,
    Map = 5,
    Flags = 6,
    Enum = 7,
    Option = 8,
    Result = 9,
    FixedLengthList = 10,
}

// The references stand from `first` to before `end`, the next definition from `next` on. `count` is the word after the kind word,
// whatever it means there.
#[derive(Clone, Copy)]
pub struct Heading {
    pub kind: Kind,
    pub count: u32,
    pub first: usize,
    pub end: usize,
    pub next: usize,
}

// The shapes of the ten bodies, two bits for each kind word, 10 in front and 0 last: 1 where a count stands first, ..
const COUNTED: u32 = 0b00_00_00_00_00_00_01_00_01_01_00;

// .. how many numbers stand behind the references, ..
const NUMBERS: u32 = 0b01_00_00_01_01_00_00_00_00_00_00;

// .. and how many words the whole body has but for references that are counted.
const LENGTHS: u32 = 0b10_10_01_01_01_10_01_01_01_01_00;

impl TryFrom<u32> for Kind {
    type Error = Refusal;

    ghost try_from_gives = { λ word r. MatchResult r (λ kind. kind_of word ≡ some (kind_means kind)) (λ why. (kind_of word ≡ none) × (why ≡ BadKind)) };

    // Refuses BadKind for every other word.
    #[tactic(auto, unfolding(canon::specs::Description::kind_of))]
    fn try_from(word: u32) -> Result<Kind, Refusal> {
        match word {
            1 => Ok(Kind::Record),
            2 => Ok(Kind::Variant),
            3 => Ok(Kind::List),
            4 => Ok(Kind::Tuple),
            5 => Ok(Kind::Map),
            6 => Ok(Kind::Flags),
            7 => Ok(Kind::Enum),
            8 => Ok(Kind::Option),
            9 => Ok(Kind::Result),
            10 => Ok(Kind::FixedLengthList),
            _ => Err(Refusal::BadKind),
        }
    }
}

pub fn kind_word(kind: Kind) -> u32
    ensures { result ≡ kind_word (kind_means kind) }
{
    kind as u32
}

// Takes the two bits of a kind.
#[tactic(auto, using(crate::proofs::Sizes::word_small))]
fn bits(packed: u32, kind: Kind) -> usize
    ensures { result ≡ packed / 2 ^ (2 * kind_word (kind_means kind)) % 4 }
{
    let shift = 2 * kind_word(kind);
    ((packed >> shift) % 4) as usize
}

#[tactic(auto, using(crate::proofs::Sizes::counted_bits))]
fn before_references(kind: Kind) -> usize
    ensures { result ≡ before (shape_of (kind_means kind)) }
{
    bits(COUNTED, kind)
}

#[tactic(auto, using(crate::proofs::Sizes::number_bits))]
fn behind_references(kind: Kind) -> usize
    ensures { result ≡ behind (shape_of (kind_means kind)) }
{
    bits(NUMBERS, kind)
}

// How many words follow the kind word.
#[tactic(auto, using(crate::proofs::Sizes::length_bits))]
fn body_length(kind: Kind, count: u32) -> usize
    ensures { result ≡ body_length (shape_of (kind_means kind)) count }
{
    bits(LENGTHS, kind) + before_references(kind) * count as usize
}

#[tactic(auto, unfolding(crate::specs::Heads::body_at))]
fn body(words: &[u32], from: usize, kind: Kind) -> Result<Heading, Refusal>
    requires { from ≤ length words.now }
    ensures { leaf heading_means result ≡ body_at (kind_means kind) words.now from }
{
    let count = *words.get(from).ok_or(Refusal::Truncated)?;
    let length = body_length(kind, count);
    if words.len() - from < length {
        return Err(Refusal::Truncated);
    }
    let next = from + length;
    Ok(Heading {
        kind,
        count,
        first: from + before_references(kind),
        end: next - behind_references(kind),
        next,
    })
}

// Reads the definition that begins at a place. Refuses Truncated for a place past the end, then BadKind, then Truncated for a body that runs
// past the end.
#[tactic(auto, unfolding(crate::specs::Heads::head_at, crate::specs::Heads::head_kind))]
pub fn read_head(words: &[u32], at: usize) -> Result<Heading, Refusal>
    ensures { leaf heading_means result ≡ head_at words.now at }
{
    let word = *words.get(at).ok_or(Refusal::Truncated)?;
    let kind = Kind::try_from(word)?;
    body(words, at + 1, kind)
}
