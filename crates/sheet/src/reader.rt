// What the reader of a sheet keeps from line to line.
use plan::ports::Ports;

mod takes;

// The wires taken so far stand first in the caller's table, which is lent to each call: a reader that
// held it would have to say in each clause that it still holds the same one. So there is no invariant
// of reader and table; and after a refusal the marked ports need not be those of the wires written. The
// number of the line goes with each call too, as the place of its refusals.
#[derive(Drop)]
pub struct Reader {
    // The board count; none before the `boards` line.
    boards: Option<u8>,
    // How many wires were taken.
    wires: usize,
    // The ports of those wires.
    ports: Ports,
}
