//! What was read of an input and not yet compared.
use msr_input::{NextRecord, NextRow, RowReader};
use msr_rows::{Key, Row};
use msr_segments::Step;
use std::marker::Model;

/// What comes next.
#[derive(Clone, Copy)]
pub(crate) enum Next {
    /// A segment with that key begins at that instant; its samples follow.
    Begins(Key, i64),
    /// Samples of the segment that was begun last.
    Samples,
    /// Nothing is at hand.
    Nothing,
}

/// The row at hand, as far as it was not compared. When all of it was, its memory can be used again.
#[derive(Drop)]
pub(crate) struct Ahead {
    row: Option<Row>,
    begins: bool,
    passed: usize,
}

impl Model for Ahead {
    ghost use Rattle.std.specs.Prelude.{List};
    ghost use Rattle.msr_compare.specs.Symbols.{Symbol, row_ahead};

    ghost Value = { List Symbol };

    ghost view = { λ a. row_ahead a.row a.begins a.passed };
}

impl Ahead {
    ghost use Rattle.std.specs.Prelude.{◌≡◌, ◌↔◌, [], drop, map, IsTrue};
    ghost use Rattle.msr_compare.specs.Symbols.{Holds, held_in, row_symbols};
    ghost use Rattle.msr_compare.specs.Meetings.{IsNextSymbol};

    /// Nothing is at hand.
    pub(crate) fn new() -> Ahead
        ensures { result ≡ [] }
    {
        Ahead {
            row: None,
            begins: false,
            passed: 0,
        }
    }

    /// The row, which does that, and nothing of it was compared.
    pub(crate) fn of_row(step: Step, row: Row) -> Ahead
        ensures { result ≡ row_symbols step row }
    {
        Ahead {
            row: Some(row),
            begins: step == Step::Begins,
            passed: 0,
        }
    }

    /// The samples that are ahead, after a segment's beginning if that is ahead.
    pub(crate) fn samples(&self) -> &[i32]
        ensures { result.now ≡ held_in self.now }
    {
        let Some(row) = &self.row else {
            return &[];
        };
        match row.samples.as_slice().get(self.passed..) {
            Some(rest) => rest,
            None => &[],
        }
    }

    /// What comes next.
    pub(crate) fn next(&self) -> Next
        ensures { IsNextSymbol result self.now }
    {
        let Some(row) = &self.row else {
            return Next::Nothing;
        };
        if self.begins {
            return Next::Begins(row.key, row.start);
        }
        if self.samples().is_empty() {
            Next::Nothing
        } else {
            Next::Samples
        }
    }

    /// Whether nothing is at hand.
    pub(crate) fn is_empty(&self) -> bool
        ensures { IsTrue result ↔ (self.now ≡ []) }
    {
        matches!(self.next(), Next::Nothing)
    }

    /// Passes the beginning of a segment, if it is ahead.
    pub(crate) fn open(&mut self)
        ensures { self.new ≡ map Holds (held_in self.old) }
    {
        self.begins = false;
    }

    /// Passes some samples, and before them the beginning of a segment, if it is ahead.
    pub(crate) fn pass(&mut self, count: usize)
        ensures { self.new ≡ map Holds (drop count (held_in self.old)) }
    {
        let Some(row) = &self.row else {
            return;
        };
        self.passed = self.passed.saturating_add(count).min(row.samples.len());
        self.begins = false;
    }

    /// Gives the row, if all of it was compared, back to the reader, whose next row then stands in its memory.
    pub(crate) fn give_back(&mut self, reader: &mut RowReader)
        ensures ahead { self.new ≡ self.old }
        ensures reading { reader.new ≡ reader.old }
    {
        if !self.is_empty() {
            return;
        }
        if let Some(row) = self.row.take() {
            reader.give_back(NextRecord {
                length: 0,
                row: Some(NextRow {
                    step: Step::Joins,
                    row,
                }),
            });
        }
    }
}
