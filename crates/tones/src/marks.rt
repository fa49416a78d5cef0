//! Marks: no has code 0, yes code 1; no amount lowers one.
ghost use Rattle.std.specs.Prelude.{◌≡◌, pos};
ghost use Rattle.tones.specs.MarkLaws.{mark_laws};
ghost use Rattle.tones.specs.Marks.{mark, mark_value, marks};
ghost use Rattle.tones.specs.Whole.{WholeNumbers};

use crate::interface::Tone;

/// A mark: no is below yes.
#[derive(Clone, Copy, PartialEq, Eq, Debug)]
pub enum Mark {
    No,
    Yes,
}

impl Mark {
    /// The mark of its row. Not a `From`: each kind is made by its `new`.
    pub fn new(yes: bool) -> Mark
        ensures answer { result ≡ mark yes }
        ensures whole { WholeNumbers marks (pos 0) (pos 1) mark_value }
    {
        if yes { Mark::Yes } else { Mark::No }
    }
}

impl Tone for Mark {
    type Row = bool;

    ghost kind = { marks };

    ghost lawful = { mark_laws };

    fn count() -> u32 {
        2
    }

    fn span() -> u32 {
        0
    }

    fn code(self) -> u32 {
        self as u32
    }

    fn of_code(code: u32) -> Mark {
        Mark::new(code >= 1)
    }

    fn lowered(self, _amount: i32) -> Mark {
        self
    }

    fn row(self) -> bool {
        matches!(self, Mark::Yes)
    }

    fn of_row(row: bool) -> Mark {
        Mark::new(row)
    }
}
