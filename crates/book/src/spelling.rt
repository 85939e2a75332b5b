// Ways to spell lists of ports in bytes.
ghost use Rattle.std.specs.Prelude.{◌≡◌, ℕ, ◌<◌, ◌≤◌, true, List, length, is_some, Option, Some, slice_index};
ghost use Rattle.lists.specs.Views.{ports_in, ports_of};
ghost use Rattle.rows.specs.Rows.{listed};
ghost use Rattle.book.specs.Memory.{put_first};
ghost use Rattle.lists.specs.Lists.{all_ports};

use lists::PortList;

// A way to spell lists of at most 127 ports (0 to 7) in bytes. A list may have several spellings; one
// of the shortest is written.
pub trait Spelling {
    // The most bytes that a spelling has.
    const WIDEST: usize;

    ghost WIDEST: { ℕ };

    // Which list, if any, some bytes spell.
    ghost spelled: { List ℕ → Option (List ℕ) };

    // The spelling of a list that is written.
    ghost chosen: { List ℕ → List ℕ };

    // Which byte strings are known to spell the same.
    ghost Alike: { List ℕ → List ℕ → Type 0 };

    // The list that the bytes spell; none where they spell none.
    fn read(bytes: &[u8]) -> Option<PortList>
        ensures value { ports_in result ≡ spelled bytes.now };

    // Writes the chosen spelling of a list first in memory, and answers its length; none, and nothing
    // written, where memory is below the widest spelling.
    fn write(list: &PortList, memory: &mut [u8]) -> Option<usize>
        ensures exact { (result, memory.new) ≡ put_first WIDEST (chosen (ports_of list.now)) memory.old };

    ghost read_back: { (list : List ℕ) → length list ≤ 127 → all_ports list ≡ true → spelled (chosen list) ≡ Some list };

    ghost spelled_short: { (bytes : List ℕ) → length (listed (spelled bytes)) ≤ 127 };

    ghost spelled_ports: { (bytes : List ℕ) (at : ℕ) → slice_index (listed (spelled bytes)) at < 8 };

    ghost narrow: { (bytes list : List ℕ) → spelled bytes ≡ Some list → length bytes ≤ WIDEST };

    // Some spelling is as wide as the widest.
    ghost reached: { (bytes : List ℕ) × (is_some (spelled bytes) ≡ true) × (length bytes ≡ WIDEST) };

    ghost shortest: { (bytes list : List ℕ) → spelled bytes ≡ Some list → length (chosen list) ≤ length bytes };

    ghost alike: { (one other : List ℕ) → Alike one other → spelled one ≡ spelled other };
}
