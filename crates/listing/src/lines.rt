// Writes the line of a row, and the line of a build's answer.
ghost use Rattle.std.specs.Prelude.{◌≡◌, ◌*◌};
ghost use Rattle.build.specs.Means.{built_means};
ghost use Rattle.canon.specs.Answer.{ok, refused};
ghost use Rattle.table.specs.Rows.{row_in};
ghost use Rattle.types.specs.Means.{number_of};
ghost use Rattle.listing.specs.Text.{spaced_all, flat_text, row_numbers, row_line, end_line};
ghost use Rattle.listing.specs.Told.{Adds, HasRoom, table_lines};

use crate::numbers::{MOST_DIGITS, Output};
use build::Built;
use table::{DefinitionIndex, Refused, row_info, row_kind};
use types::{NO_FLAT_COUNT, Refusal};

// A row's line has seven numbers, each with a byte after it.
pub(crate) const LINE_BYTES: usize = 7 * (MOST_DIGITS + 1);

// The line of a refusal is the longest of an answer: eight bytes for its name, then two numbers.
pub(crate) const ANSWER_BYTES: usize = 8 + 2 * (MOST_DIGITS + 1);

fn numbers_of(table: &[u32], index: DefinitionIndex) -> [u32; 6]
    ensures { result ≡ row_numbers index.0 (row_in table.now index.0) }
{
    let row = row_info(table, index);
    [
        index.0,
        row_kind(table, index),
        row.layouts.in32.size,
        row.layouts.in32.align,
        row.layouts.in64.size,
        row.layouts.in64.align,
    ]
}

impl Output<'_> {
    #[tactic(auto, using(crate::proofs::Writing::texts, crate::proofs::Writing::spaced_turn), unfolding(crate::specs::Text::spaced_all, crate::specs::Text::written))]
    fn put_all_spaced(&mut self, numbers: [u32; 6])
        requires { HasRoom self.old 66 }
        ensures { Adds self.old self.new (spaced_all numbers) 66 }
    {
        for n in numbers {
            self.put_spaced(n);
        }
    }

    #[tactic(auto, using(crate::proofs::Writing::texts), unfolding(crate::specs::Text::flat_text))]
    fn put_flat(&mut self, count: u32)
        requires { HasRoom self.old 10 }
        ensures { Adds self.old self.new (flat_text count) 10 }
    {
        if count == NO_FLAT_COUNT {
            self.put(b"-");
        } else {
            self.put_decimal(count);
        }
    }

    fn put_row(&mut self, table: &[u32], index: DefinitionIndex)
        requires { HasRoom self.old 77 }
        ensures { Adds self.old self.new (row_line index.0 (row_in table.now index.0)) 77 }
    {
        self.put_all_spaced(numbers_of(table, index));
        self.put_flat(row_info(table, index).flat.count);
        self.put(b"\n");
    }

    // Writes the lines of the first `count` rows.
    #[tactic(auto, using(crate::proofs::Writing::texts, crate::proofs::Telling::lines_turn), unfolding(crate::specs::Told::table_lines, crate::specs::Text::written))]
    pub(crate) fn put_rows(&mut self, table: &[u32], count: u32)
        requires { HasRoom self.old (77 * count) }
        ensures { Adds self.old self.new (table_lines table.now count) (77 * count) }
    {
        for index in 0..count {
            self.put_row(table, DefinitionIndex(index));
        }
    }

    #[tactic(auto, using(crate::proofs::Writing::texts), unfolding(crate::specs::Text::end_line))]
    fn put_ok(&mut self, count: u32)
        requires { HasRoom self.old 30 }
        ensures { Adds self.old self.new (end_line (ok count)) 30 }
    {
        self.put(b"ok ");
        self.put_decimal(count);
        self.put(b"\n");
    }

    #[tactic(auto, using(crate::proofs::Writing::texts), unfolding(crate::specs::Text::end_line))]
    pub(crate) fn put_refused(&mut self, why: Refusal, at: DefinitionIndex)
        requires { HasRoom self.old 30 }
        ensures { Adds self.old self.new (end_line (refused (number_of why) at.0)) 30 }
    {
        self.put(b"refused ");
        self.put_spaced(why.number());
        self.put_decimal(at.0);
        self.put(b"\n");
    }

    pub(crate) fn put_answer(&mut self, answer: Result<Built, Refused<DefinitionIndex>>)
        requires { HasRoom self.old 30 }
        ensures { Adds self.old self.new (end_line (built_means answer)) 30 }
    {
        match answer {
            Ok(built) => self.put_ok(built.rows),
            Err(refused) => self.put_refused(refused.why, refused.at),
        }
    }
}
