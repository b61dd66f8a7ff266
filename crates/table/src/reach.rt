// Word 15 of a row: 1 if a type reaches a Borrow through its references, plus twice its depth.
ghost use Rattle.std.specs.Prelude.{◌≡◌};
ghost use Rattle.canon.specs.Reach.{join_reach, good_reach};
ghost use Rattle.types.specs.Means.{leaf};
ghost use Rattle.table.specs.Means.{reach_means, reach_of, deeper_answer};

use types::Refusal;

// No definition may be deeper.
const DEEPEST: u32 = 100;

#[derive(Clone, Copy)]
pub struct Reach(pub u32);

impl Reach {
    pub const NONE: Reach = Reach(0);

    pub const BORROW: Reach = Reach(1);

    // A definition that refers to none is 1 deep.
    pub const DEFINITION: Reach = Reach(2);

    #[tactic(auto, unfolding(canon::specs::Reach::word_reach))]
    pub fn is_borrow(self) -> bool
        ensures { result ≡ (reach_means self).borrow }
    {
        self.0 % 2 == 1
    }

    #[tactic(auto, unfolding(canon::specs::Reach::word_reach))]
    pub fn depth(self) -> u32
        ensures { result ≡ (reach_means self).depth }
    {
        self.0 / 2
    }

    // Gives what either reaches, as deep as the deeper goes.
    #[tactic(auto, using(canon::proofs::Reaches::word_join), unfolding(canon::specs::Reach::word_reach))]
    pub fn join(self, other: Reach) -> Reach
        ensures { result ≡ reach_of (join_reach (reach_means self) (reach_means other)) }
    {
        let borrow = (self.0 % 2).max(other.0 % 2);
        let depth = self.depth().max(other.depth());
        Reach(borrow + 2 * depth)
    }

    // Goes one definition deeper. Refuses TooDeep above 100.
    #[tactic(auto, using(canon::proofs::Reaches::word_deeper), unfolding(canon::specs::Reach::word_reach, canon::specs::Reach::deeper, canon::specs::Reach::is_too_deep, crate::specs::Means::deeper_answer))]
    pub fn deeper(self) -> Result<Reach, Refusal>
        ensures { leaf reach_means result ≡ deeper_answer (reach_means self) }
    {
        if self.depth() < DEEPEST {
            Ok(Reach(self.0 + 2))
        } else {
            Err(Refusal::TooDeep)
        }
    }

    // Tells whether a row may hold this word.
    #[tactic(auto, unfolding(canon::specs::Reach::good_reach))]
    pub fn is_good(self) -> bool
        ensures { result ≡ good_reach self.0 }
    {
        matches!(self.0, 2..=201)
    }
}
