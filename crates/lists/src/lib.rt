// Lists of ports.
#![tactic(auto)]

ghost use Rattle.std.specs.Prelude.{◌≡◌, ℕ, ◌<◌, ◌≤◌, length, slice_index};

pub use fault::ListFault;

mod fault;
mod ports;

// The most ports a list may have.
pub const LONGEST: u8 = 127;

// How many ports each board has: they are numbered 0 to 7. One number is no reason to use the crate
// `plan`: each change there would prove the books anew.
pub const PORTS: u8 = 8;

// A list of at most 127 ports.
// A length beside an array: no heap in the libraries, and the kit's `arrayvec` is not `Copy`.
// Tried `impl Model`: the laws of a book need these bounds, and a law knows nothing of the value of a
// model.
#[derive(Clone, Copy)]
pub struct PortList {
    // How many ports the list has.
    len: u8,
    // The ports, in order; those from `len` on mean nothing.
    ports: [u8; 127],
    ghost wide: { length ports ≡ 127 },
    ghost short: { len ≤ 127 },
    ghost fit: { (k : ℕ) → slice_index ports k < 8 },
}
