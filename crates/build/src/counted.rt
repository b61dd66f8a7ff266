// A value, and how many rows were read back for it.
ghost use Rattle.std.specs.Prelude.{◌≡◌};
ghost use Rattle.build.specs.Means.{value_of, ReadBack};

use types::Refusal;

#[derive(Clone, Copy)]
pub(crate) struct Counted<T> {
    pub(crate) value: T,
    pub(crate) reads: u32,
}

impl<T> Counted<T> {
    pub(crate) fn unread(value: T) -> Counted<T>
        ensures { result ≡ record { value = value; reads = 0 } }
    {
        Counted { value, reads: 0 }
    }

    pub(crate) fn map<U, F: FnOnce(T) -> U>(self, f: F) -> Counted<U>
        requires { F.pre f self.value }
        ensures made { F.post f self.value result.value }
        ensures reads { result.reads ≡ self.reads }
    {
        Counted {
            value: f(self.value),
            reads: self.reads,
        }
    }

    pub(crate) fn and_then<U, F: FnOnce(T) -> Result<U, Refusal>>(
        self,
        f: F,
    ) -> Result<Counted<U>, Refusal>
        requires { F.pre f self.value }
        ensures made { F.post f self.value (value_of result) }
        ensures reads { ReadBack result self.reads }
    {
        let value = f(self.value)?;
        Ok(Counted {
            value,
            reads: self.reads,
        })
    }
}
