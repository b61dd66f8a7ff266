// Takes the references of a definition together, one after another.
ghost use Rattle.std.specs.Prelude.{◌≡◌, [], ◌∷◌, List, ℕ, ◌≤◌, length};
ghost use Rattle.canon.specs.Answer.{Leaf};
ghost use Rattle.canon.specs.Row.{Info};
ghost use Rattle.canon.specs.Cost.{rows_among};
ghost use Rattle.build.specs.Steps.{fold_refs};

use crate::counted::Counted;
use crate::reference::Earlier;
use types::Refusal;

// The references of a definition, and the rows that they may name.
#[derive(Clone, Copy)]
pub(crate) struct References<'a> {
    pub(crate) words: &'a [u32],
    pub(crate) earlier: Earlier<'a>,
    pub(crate) ghost few: { length words.now ≤ 16384 },
}

// What references make together, as the members of a record do and the payloads of a variant.
pub(crate) trait Parts: Copy {
    ghost use Rattle.build.specs.Means.{look_in, counted, ReadBack};

    ghost Sum: { Type 0 };

    ghost means: { Self → Sum };

    ghost with: { (ℕ → Leaf Info) → Sum → ℕ → Leaf Sum };

    // Adds what one more reference stands for.
    fn with(self, earlier: Earlier, reference: u32) -> Result<Counted<Self>, Refusal>
        ensures value { counted means result ≡ with (look_in earlier.entry) (means self) reference }
        ensures reads { ReadBack result (rows_among (reference ∷ [])) };
}

impl References<'_> {
    ghost use Rattle.build.specs.Means.{look_in, counted, ReadBack};

    // The first bad reference decides.
    pub(crate) fn gather<P: Parts>(self, start: P) -> Result<Counted<P>, Refusal>
        ensures value { counted P.means result ≡ fold_refs (P.with (look_in self.entry.earlier)) self.entry.words.now (P.means start) }
        ensures reads { ReadBack result (rows_among self.entry.words.now) }
    {
        let mut parts = start;
        let mut reads: u32 = 0;
        for reference in self.words {
            let more = parts.with(self.earlier, *reference)?;
            parts = more.value;
            reads += more.reads;
        }
        Ok(Counted {
            value: parts,
            reads,
        })
    }
}
