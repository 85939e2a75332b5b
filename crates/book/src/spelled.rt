// The address book of a spelling.
ghost use Rattle.std.specs.Prelude.{◌≡◌, ℕ, ◌≤◌, List, length, is_some, IfSome, MatchOption};
ghost use Rattle.rows.specs.Rows.{both_same, no_rows};
ghost use Rattle.book.specs.Views.{held};
ghost use Rattle.book.specs.Memory.{Written, put_row, writable};
ghost use Rattle.rows.proofs.Tables.{rows_short, rows_fit, rows_few};
ghost use Rattle.book.specs.Reading.{narrow_from};

use crate::{Book, Spelling};
use rows::{RowFault, RowTable};
use std::marker::PhantomData;

// A table of rows, with the lists spelled as `S` does.
#[derive(Drop)]
pub struct SpelledBook<S> {
    rows: RowTable,
    spelling: PhantomData<S>,
}

impl<S: Spelling> SpelledBook<S> {
    // No row has a list.
    pub fn new() -> SpelledBook<S>
        ensures { held result ≡ no_rows }
    {
        SpelledBook {
            rows: RowTable::new(),
            spelling: PhantomData,
        }
    }
}

impl<S: Spelling> Book for SpelledBook<S> {
    const WIDEST: usize = S::WIDEST;

    ghost WIDEST = { S.WIDEST };

    ghost rows = { held };

    ghost spelled = { S.spelled };

    ghost short = { λ b row. rows_short b.rows row };

    ghost ports = { λ b row at. rows_fit b.rows row at };

    ghost few = { λ b row h. rows_few b.rows row h };

    ghost spelled_short = { S.spelled_short };

    ghost spelled_ports = { S.spelled_ports };

    ghost narrow = { λ bytes h. narrow_from S.spelled bytes S.WIDEST (S.narrow bytes) h };

    ghost reached = { S.reached };

    fn most() -> usize {
        S::WIDEST
    }

    fn clear(&mut self) {
        self.rows.clear();
    }

    fn start(&mut self, row: u8) -> Result<(), RowFault> {
        self.rows.start(row)
    }

    fn extend(&mut self, row: u8, source: u8, port: u8) -> Result<(), RowFault> {
        self.rows.extend(row, source, port)
    }

    fn depth(&self, row: u8) -> Option<u8> {
        self.rows.depth(row)
    }

    fn shared(&self, a: u8, b: u8) -> Option<u8> {
        self.rows.shared(a, b)
    }

    fn spells(bytes: &[u8]) -> bool {
        S::read(bytes).is_some()
    }

    // Byte strings that are known to spell the same get the same answer.
    fn names(&self, row: u8, bytes: &[u8]) -> bool
        ensures answer { result ≡ both_same (S.spelled bytes.now) (held self.now row) }
        ensures alike { (other : List ℕ) → S.Alike bytes.now other → result ≡ both_same (S.spelled other) (held self.now row) }
    {
        // Not `is_some_and`, which copied the list.
        let Some(list) = S::read(bytes) else {
            return false;
        };
        self.rows.has(row, &list)
    }

    // No spelling of the row's list is shorter than the one that is written.
    fn write(&self, row: u8, memory: &mut [u8]) -> Option<usize>
        ensures answer { is_some result ≡ writable S.WIDEST (held self.now row) memory.old }
        ensures memory { MatchOption result (memory.new ≡ memory.old) (λ n. Written S.WIDEST S.spelled (held self.now row) memory.old memory.new n) }
        ensures exact { (result, memory.new) ≡ put_row S.WIDEST S.chosen (held self.now row) memory.old }
        ensures shortest { IfSome result (λ n. (bytes : List ℕ) → S.spelled bytes ≡ held self.now row → n ≤ length bytes) }
    {
        S::write(self.rows.get(row)?, memory)
    }
}
