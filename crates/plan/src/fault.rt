// What can be wrong with a board count or a wire, and how every refusal is reported.
ghost use Rattle.std.specs.Prelude.{◌≡◌, Some};
ghost use Rattle.plan.specs.Faults.{plan_refusal};
ghost use Rattle.plan.specs.Printed.{refusal_text};

use std::fmt;
use thiserror::Error;

// A count or a wire that a plan cannot take. Each case holds the place of the refusal: where the
// count or the wire came from, as its caller numbers it.
#[derive(Clone, Copy, Debug, Error)]
pub enum PlanFault {
    // The board count is not 1 to 128, or an end names a board or a port that is not there.
    #[error("a count, board or port is out of range")]
    OutOfRange(usize),
    // Both ends are on one board.
    #[error("both ends are on one board")]
    OneBoard(usize),
    // A port of the wire already has a wire.
    #[error("a port already has a wire")]
    PortTaken(usize),
}

// A refusal as it is reported: the layer that found it (1 sheet, 2 stringing, 3 frame), its number
// and its place. The three stay numbers, as docs/FAULTS.md has them: they are what a report consists
// of, the kinds are the cases of the faults, and an enum for the layer would ask more of callers.
#[derive(Clone, Copy, Debug, PartialEq, Eq)]
pub struct Refusal {
    pub layer: u8,
    pub number: u8,
    pub place: usize,
}

impl PlanFault {
    // The refusal as the layer reports it that found it. No `From`, which takes no layer.
    pub fn refusal(&self, layer: u8) -> Refusal
        ensures { result ≡ plan_refusal layer self.now }
    {
        let (number, place) = match *self {
            PlanFault::OutOfRange(place) => (8, place),
            PlanFault::OneBoard(place) => (10, place),
            PlanFault::PortTaken(place) => (11, place),
        };
        Refusal {
            layer,
            number,
            place,
        }
    }
}

impl fmt::Display for Refusal {
    ghost output = { λ r. Some (refusal_text r) };

    fn fmt<W: fmt::Write>(&self, f: &mut fmt::Formatter<W>) -> fmt::Result {
        let (layer, number, place) = (self.layer, self.number, self.place);
        write!(f, "layer {layer}, number {number}, place {place}")
    }
}
