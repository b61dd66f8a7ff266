// Says why a call refuses; the numbers are those of 01's table.
ghost use Rattle.std.specs.Prelude.{◌≡◌};
ghost use Rattle.types.specs.Means.{number_of};

#[derive(Clone, Copy)]
pub enum Refusal {
    TooLong = 1,
    Truncated = 2,
    BadKind = 3,
    BadRef = 4,
    BadCount = 5,
    TooLarge = 6,
    NoRoom = 7,
    BadRow = 8,
    TooDeep = 9,
}

impl Refusal {
    pub fn number(self) -> u32
        ensures { result ≡ number_of self }
    {
        self as u32
    }
}
