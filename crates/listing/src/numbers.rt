// Lent bytes that are written from the front on: bytes and decimal numbers, each after what is there.
ghost use Rattle.std.specs.Prelude.{◌≡◌, ◌≤◌, length};
ghost use Rattle.listing.specs.Text.{decimal, spaced};
ghost use Rattle.listing.specs.Told.{Adds, HasRoom};

use itoa::write_digits;

// A word has no more decimal digits.
pub(crate) const MOST_DIGITS: usize = 10;

// By arms: with the kit's ilog10 a report of 1,000 definitions took 1.07 of the time.
fn digit_count(n: u32) -> usize
    ensures count { result ≡ length (decimal n) }
    ensures few { result ≤ 10 }
{
    match n {
        0..=9 => 1,
        10..=99 => 2,
        100..=999 => 3,
        1_000..=9_999 => 4,
        10_000..=99_999 => 5,
        100_000..=999_999 => 6,
        1_000_000..=9_999_999 => 7,
        10_000_000..=99_999_999 => 8,
        100_000_000..=999_999_999 => 9,
        _ => 10,
    }
}

// The first `len` of the bytes are written. Not a `fmt::Write`: no clause of `write!` rules out an `Err`, and `report` answers none.
#[derive(Drop)]
pub(crate) struct Output<'a> {
    bytes: &'a mut [u8],
    len: usize,
}

impl<'a> Output<'a> {
    pub(crate) fn new(bytes: &'a mut [u8]) -> Output<'a>
        ensures same { result.bytes.ghost_name ≡ bytes.entry.ghost_name }
        ensures bytes { result.bytes.now ≡ bytes.old }
        ensures len { result.len ≡ 0 }
    {
        Output { bytes, len: 0 }
    }

    pub(crate) fn len(&self) -> usize
        ensures { result ≡ self.now.len }
    {
        self.len
    }

    #[tactic(auto, using(crate::proofs::Writing::copied, crate::proofs::Writing::length_written))]
    pub(crate) fn put(&mut self, text: &[u8])
        requires { HasRoom self.old (length text.now) }
        ensures { Adds self.old self.new text.now (length text.now) }
    {
        let end = self.len + text.len();
        self.bytes[self.len..end].copy_from_slice(text);
        self.len = end;
    }

    // The digits are written where they stay: to copy them out of a buffer of itoa's takes longer.
    pub(crate) fn put_decimal(&mut self, n: u32)
        requires { HasRoom self.old 10 }
        ensures { Adds self.old self.new (decimal n) 10 }
    {
        let end = self.len + digit_count(n);
        write_digits(n as u64, self.bytes, end);
        self.len = end;
    }

    #[tactic(auto, using(crate::proofs::Writing::texts), unfolding(crate::specs::Text::spaced))]
    pub(crate) fn put_spaced(&mut self, n: u32)
        requires { HasRoom self.old 11 }
        ensures { Adds self.old self.new (spaced n) 11 }
    {
        self.put_decimal(n);
        self.put(b" ");
    }
}
