// Says why a build or a question is refused, and at which position; `P` is what counts the positions.
use types::Refusal;

#[derive(Clone, Copy)]
pub struct Refused<P> {
    pub why: Refusal,
    pub at: P,
}
