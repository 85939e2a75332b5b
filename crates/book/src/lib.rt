// Address books: what a book means, and what holds of every book.
#![tactic(auto)]

ghost use Rattle.std.specs.Prelude.{◌≡◌, ℕ, ◌<◌, ◌≤◌, true, List, length, is_some, None, OnErr, Option, MatchOption, slice_index};
ghost use Rattle.rows.specs.Rows.{Rows, both_same, depth_of, extended, listed, no_rows, shared_of, started};
ghost use Rattle.book.specs.Memory.{Written, writable};

use rows::RowFault;
pub use spelled::SpelledBook;
pub use spelling::Spelling;

pub mod checks;
mod spelled;
mod spelling;

// An address book: for each row 0 to 127 nothing or a list of at most 127 ports (0 to 7), and a way
// to spell such lists in bytes.
pub trait Book {
    // The most bytes that a spelling has.
    const WIDEST: usize;

    ghost WIDEST: { ℕ };

    // What the book holds: each row's list.
    ghost rows: { Self → Rows };

    // Which list, if any, some bytes spell.
    ghost spelled: { List ℕ → Option (List ℕ) };

    // The most bytes that a spelling has: the constant, as a call. It stays, as it is public.
    fn most() -> usize
        ensures { result ≡ WIDEST };

    // Empties all rows.
    fn clear(&mut self)
        ensures { rows self.new ≡ no_rows };

    // Makes a row the empty list; nothing changes for a row above 127.
    fn start(&mut self, row: u8) -> Result<(), RowFault>
        ensures answer { (result, rows self.new) ≡ started row (rows self.old) }
        ensures kept { OnErr result (self.new ≡ self.old) };

    // Gives a row the source row's list with one port more at its end; nothing changes for a row above
    // 127, a source row without a list, or a list that does not take the port.
    fn extend(&mut self, row: u8, source: u8, port: u8) -> Result<(), RowFault>
        ensures answer { (result, rows self.new) ≡ extended row source port (rows self.old) }
        ensures kept { OnErr result (self.new ≡ self.old) };

    // How many ports the row's list has; none where it has none.
    fn depth(&self, row: u8) -> Option<u8>
        ensures { result ≡ depth_of (rows self.now row) };

    // How many leading ports the lists of two rows share; none where one has no list.
    fn shared(&self, a: u8, b: u8) -> Option<u8>
        ensures { result ≡ shared_of (rows self.now a) (rows self.now b) };

    // Whether the bytes spell a list.
    fn spells(bytes: &[u8]) -> bool
        ensures { result ≡ is_some (spelled bytes.now) };

    // Whether the bytes spell the row's list.
    fn names(&self, row: u8, bytes: &[u8]) -> bool
        ensures answer { result ≡ both_same (spelled bytes.now) (rows self.now row) };

    // Writes one spelling of the row's list first in memory, nothing past it, and answers its length;
    // none, and nothing written, for a row without a list or memory below the widest spelling.
    fn write(&self, row: u8, memory: &mut [u8]) -> Option<usize>
        ensures answer { is_some result ≡ writable WIDEST (rows self.now row) memory.old }
        ensures memory { MatchOption result (memory.new ≡ memory.old) (λ n. Written WIDEST spelled (rows self.now row) memory.old memory.new n) };

    ghost short: { (b : Self) (row : ℕ) → length (listed (rows b row)) ≤ 127 };

    ghost ports: { (b : Self) (row at : ℕ) → slice_index (listed (rows b row)) at < 8 };

    ghost few: { (b : Self) (row : ℕ) → 128 ≤ row → rows b row ≡ None };

    ghost spelled_short: { (bytes : List ℕ) → length (listed (spelled bytes)) ≤ 127 };

    ghost spelled_ports: { (bytes : List ℕ) (at : ℕ) → slice_index (listed (spelled bytes)) at < 8 };

    ghost narrow: { (bytes : List ℕ) → is_some (spelled bytes) ≡ true → length bytes ≤ WIDEST };

    // Some spelling is as wide as the widest.
    ghost reached: { (bytes : List ℕ) × (is_some (spelled bytes) ≡ true) × (length bytes ≡ WIDEST) };
}
