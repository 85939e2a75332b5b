// The run book: pairs of port and count, each for so many equal ports in a row.
#![tactic(auto)]

ghost use Rattle.std.specs.Prelude.{◌≡◌, ℕ, ◌≤◌, List, length, IfSome, Some};
ghost use Rattle.std.specs.Option.{option_map};
ghost use Rattle.lists.specs.Views.{ports_in, ports_of};
ghost use Rattle.book.specs.Memory.{headed, put_first};
ghost use Rattle.run_book.specs.Worked.{Worked};
ghost use Rattle.run_book.specs.Spelling.{Cut, run_list, runs, with_run};
ghost use Rattle.run_book.specs.RunLaws.{cut_same, run_fit, run_reached, run_short, run_widest, runs_read, runs_shortest};

use book::{SpelledBook, Spelling};
use lists::{PORTS, PortList};

// Spells a list by its runs of equal ports; every spelling is accepted, the shortest is written.
#[derive(Clone, Copy)]
pub struct Runs;

// The book of that spelling.
pub type RunBook = SpelledBook<Runs>;

// Adds a run to a list; none where it is no run, or there is no room for it.
fn push_run(list: &mut PortList, port: u8, count: u8) -> Option<()>
    ensures { option_map (λ _. ports_of list.new) result ≡ with_run (ports_of list.old) port count }
{
    if port >= PORTS || count == 0 {
        return None;
    }
    for _ in 0..count {
        list.push(port).ok()?;
    }
    Some(())
}

// Writes the pairs of the ports first in memory, as few as can be, and answers how many bytes they
// are.
fn write_runs(ports: &[u8], memory: &mut [u8]) -> usize
    requires { (length ports.now ≤ 127) × (254 ≤ length memory.old) }
    ensures size { result ≡ length (runs ports.now) }
    ensures memory { memory.new ≡ headed (runs ports.now) memory.old }
{
    // Tried `zip` with `chunks_exact_mut(2)`, after which a proof knows only how long memory is.
    let mut size = 0;
    for run in ports.chunk_by(|a, b| a == b) {
        memory[size] = run[0];
        // No `try_from`: it would add a way to fail.
        memory[size + 1] = run.len() as u8;
        size += 2;
    }
    size
}

impl Spelling for Runs {
    const WIDEST: usize = 254;

    ghost WIDEST = { 254 };

    ghost spelled = { run_list };

    ghost chosen = { runs };

    ghost Alike = { Cut };

    ghost read_back = { runs_read };

    ghost spelled_short = { run_short };

    ghost spelled_ports = { run_fit };

    ghost narrow = { run_widest };

    ghost reached = { run_reached };

    ghost shortest = { runs_shortest };

    ghost alike = { λ one other cut. cut_same cut };

    // However its runs are cut, a spelling is read as the same list.
    fn read(bytes: &[u8]) -> Option<PortList>
        ensures value { ports_in result ≡ run_list bytes.now }
        ensures cut { (pieces : List ℕ) → Cut bytes.now pieces → ports_in result ≡ run_list pieces }
    {
        let (pairs, left) = bytes.as_chunks::<2>();
        let mut list = PortList::new();
        for [port, count] in pairs {
            push_run(&mut list, *port, *count)?;
        }
        left.is_empty().then_some(list)
    }

    // Nothing shorter spells the list.
    #[tactic(auto, using(crate::specs::RunLaws::runs_shortest))]
    fn write(list: &PortList, memory: &mut [u8]) -> Option<usize>
        ensures exact { (result, memory.new) ≡ put_first 254 (runs (ports_of list.now)) memory.old }
        ensures shortest { IfSome result (λ n. (bytes : List ℕ) → run_list bytes ≡ Some (ports_of list.now) → n ≤ length bytes) }
    {
        // Tested by each spelling, as a public call asks nothing of its caller.
        if memory.len() < Self::WIDEST {
            return None;
        }
        Some(write_runs(list.ports(), memory))
    }
}

// The worked spellings, as one theorem on the definitions.
pub fn worked()
    ensures { Worked }
{}
