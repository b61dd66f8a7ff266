// Finds the cells of a row; `place` alone says where a word of a row stands.
ghost use Rattle.std.specs.Prelude.{◌≡◌, ◌*◌, ◌≤◌, ◌<◌, MatchOption};
ghost use Rattle.canon.specs.Table.{capacity, place};

use crate::info::DefinitionIndex;

// Every row has so many words.
pub const ROW_WORDS: usize = 16;

// No table has more rows, whatever the buffer holds.
pub const MOST_ROWS: usize = 1024;

pub const TABLE_WORDS: usize = MOST_ROWS * ROW_WORDS;

// Answers how many rows a buffer of so many words has room for.
#[tactic(auto, unfolding(canon::specs::Table::capacity))]
pub fn capacity(words: usize) -> usize
    ensures { (result ≡ capacity words) × (result ≤ 1024) × (16 * result ≤ words) }
{
    (words / ROW_WORDS).min(MOST_ROWS)
}

// Holds which row it is, and how many rows its table has room for. The words may be numbers or bytes, lent to read or to write.
#[derive(Clone, Copy)]
pub(crate) struct Cells {
    room: usize,
    row: usize,
    ghost there: { row < room },
    ghost few: { room ≤ 1024 },
}

impl Cells {
    // Finds nothing where a table of so many words has no room for the row.
    pub(crate) fn of(words: usize, index: DefinitionIndex) -> Option<Cells>
        ensures { MatchOption result (capacity words ≤ index.0) (λ c. (c.room ≡ capacity words) × (c.row ≡ index.0) × (16 * c.room ≤ words)) }
    {
        let room = capacity(words);
        let row = index.0 as usize;
        if row < room {
            Some(Cells { room, row })
        } else {
            None
        }
    }

    // The table is sixteen runs, one for each word of a row, and each as long as the table has room for rows.
    #[tactic(auto, unfolding(canon::specs::Table::place))]
    pub(crate) fn place(self, word: usize) -> usize
        requires { word < 16 }
        ensures is { result ≡ place self.room self.row word }
        ensures within { result < 16 * self.room }
    {
        word * self.room + self.row
    }
}
