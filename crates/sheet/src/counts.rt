// What a sheet was found to hold.
ghost use Rattle.std.specs.Prelude.{Some};
ghost use Rattle.sheet.specs.Printed.{counts_text};

use std::fmt;

// The board count and the number of wires.
#[derive(Clone, Copy, Debug, PartialEq, Eq)]
pub struct Counts {
    pub boards: u8,
    pub wires: usize,
}

impl fmt::Display for Counts {
    ghost output = { λ c. Some (counts_text c) };

    fn fmt<W: fmt::Write>(&self, f: &mut fmt::Formatter<W>) -> fmt::Result {
        let (boards, wires) = (self.boards, self.wires);
        write!(f, "{boards} boards, {wires} wires")
    }
}
