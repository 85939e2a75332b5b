// The table of rows that every address book keeps.
#![tactic(auto)]

ghost use Rattle.std.specs.Prelude.{◌≡◌, length};

pub use fault::RowFault;
use lists::PortList;

mod calls;
mod fault;

// How many rows there are: they are numbered 0 to 127. As many as boards, and for this one number the
// crate `plan` is not used either.
pub const ROWS: u8 = 128;

// For each row nothing or a list of ports.
// An array and no map: no heap in the libraries.
// No `impl Model`, for the same reason as at a list of ports.
#[derive(Drop)]
pub struct RowTable {
    // At a row's number: its list, none where it has none.
    lists: [Option<PortList>; 128],
    ghost wide: { length lists ≡ 128 },
}
