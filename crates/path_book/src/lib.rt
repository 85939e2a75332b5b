// The path book: one byte a port.
#![tactic(auto)]

ghost use Rattle.std.specs.Prelude.{◌≡◌, ◌≤◌, length};
ghost use Rattle.std.proofs.Common.{ap};
ghost use Rattle.book.specs.Memory.{headed};
ghost use Rattle.path_book.specs.Spelling.{path_list};
ghost use Rattle.path_book.specs.PathSpelling.{path_fit, path_read_back, path_reached, path_short, path_shortest, path_widest};

use book::{SpelledBook, Spelling};
use lists::PortList;

// Spells a list by its ports, one byte each.
#[derive(Clone, Copy)]
pub struct Path;

// The book of that spelling.
pub type PathBook = SpelledBook<Path>;

// Writes bytes first in memory.
fn copy_first(bytes: &[u8], memory: &mut [u8])
    requires { length bytes.now ≤ length memory.old }
    ensures { memory.new ≡ headed bytes.now memory.old }
{
    memory[..bytes.len()].copy_from_slice(bytes);
}

impl Spelling for Path {
    const WIDEST: usize = 127;

    ghost WIDEST = { 127 };

    ghost spelled = { path_list };

    ghost chosen = { λ list. list };

    // There is one spelling of each list.
    ghost Alike = { λ one other. one ≡ other };

    ghost read_back = { path_read_back };

    ghost spelled_short = { path_short };

    ghost spelled_ports = { path_fit };

    ghost narrow = { path_widest };

    ghost reached = { path_reached };

    ghost shortest = { path_shortest };

    ghost alike = { λ one other same. ap path_list same };

    fn read(bytes: &[u8]) -> Option<PortList> {
        let mut list = PortList::new();
        for byte in bytes {
            list.push(*byte).ok()?;
        }
        Some(list)
    }

    fn write(list: &PortList, memory: &mut [u8]) -> Option<usize> {
        // Tested by each spelling, as a public call asks nothing of its caller.
        if memory.len() < Self::WIDEST {
            return None;
        }
        let ports = list.ports();
        copy_first(ports, memory);
        Some(ports.len())
    }
}
