// Code over any book, proved once: what holds of every book.
ghost use Rattle.std.specs.Prelude.{◌≡◌, true, is_some, IfSome, MatchOption};
ghost use Rattle.book.specs.Checks.{alike_to};
ghost use Rattle.book.specs.Memory.{Written, writable};

use crate::Book;

// Whether two byte strings get the same answers from a book, for a row. All spellings of one list do.
pub fn alike<B: Book>(book: &B, row: u8, one: &[u8], other: &[u8]) -> bool
    ensures answer { result ≡ alike_to (B.rows book.now row) (B.spelled one.now) (B.spelled other.now) }
    ensures same { B.spelled one.now ≡ B.spelled other.now → result ≡ true }
{
    B::spells(one) == B::spells(other) && book.names(row, one) == book.names(row, other)
}

// Writes a row, and answers the spelling's length and whether the book itself reads it as the row's
// list. It does, wherever the row was written: the answer stays beside the length so that the clause
// `read` can say that it is always yes.
pub fn read_back<B: Book>(book: &B, row: u8, memory: &mut [u8]) -> Option<(usize, bool)>
    ensures answer { is_some result ≡ writable B.WIDEST (B.rows book.now row) memory.old }
    ensures memory { MatchOption result (memory.new ≡ memory.old) (λ p. Written B.WIDEST B.spelled (B.rows book.now row) memory.old memory.new p.0) }
    ensures read { IfSome result (λ p. p.1 ≡ true) }
{
    let n = book.write(row, memory)?;
    Some((n, book.names(row, &memory[..n])))
}
