// Why a sheet is refused.
ghost use Rattle.std.specs.Prelude.{◌≡◌};
ghost use Rattle.grammar.specs.Faults.{sheet_refusal};
ghost use Rattle.grammar.specs.declared.fault.SheetFault.TheVariants.{InLine, InPlan};

use plan::fault::{PlanFault, Refusal};
use text::fault::{LineFault, WordFault};
use thiserror::Error;

// A refused sheet. Each case that a line is to blame for holds the line's number, from 1.
#[derive(Clone, Copy, Debug, Error)]
pub enum SheetFault {
    // The sheet has more than 32,768 bytes.
    #[error("the sheet has more than 32768 bytes")]
    TooLong,
    // The line's bytes, or a number in it, are at fault.
    #[error(transparent)]
    InLine(LineFault),
    // The first word is not `boards`, `wire` or `note`.
    #[error("the first word is not boards, wire or note")]
    UnknownLine(usize),
    // A `boards` line has not two words, or a `wire` line not six.
    #[error("a boards line has 2 words, a wire line 6")]
    WordCount(usize),
    // A `wire` line comes before `boards`, `boards` comes twice, or the sheet ends without it.
    #[error("boards comes once, and before any wire")]
    Misplaced(usize),
    // The count, or the wire beside those before it, does not fit the plan.
    #[error(transparent)]
    InPlan(PlanFault),
    // The state is not `ok`, `out`, `back` or `dead`.
    #[error("the state is not ok, out, back or dead")]
    UnknownState(usize),
    // The wire table has no record left.
    #[error("the wire table has no record left")]
    TableFull(usize),
}

// Not thiserror's `#[from]`, here and below: that has no contract, and clauses name the error that
// `?` makes.
impl From<LineFault> for SheetFault {
    ghost from_gives = { λ f r. r ≡ InLine f };

    fn from(f: LineFault) -> SheetFault {
        SheetFault::InLine(f)
    }
}

impl From<PlanFault> for SheetFault {
    ghost from_gives = { λ f r. r ≡ InPlan f };

    fn from(f: PlanFault) -> SheetFault {
        SheetFault::InPlan(f)
    }
}

impl SheetFault {
    // Layer 1, the fault's number and its place.
    // No `From`: it goes with `PlanFault::refusal`, which takes the layer.
    pub fn refusal(&self) -> Refusal
        ensures { result ≡ sheet_refusal self.now }
    {
        match *self {
            SheetFault::TooLong => at(1, 0),
            SheetFault::InLine(LineFault::TooLong(line)) => at(2, line),
            SheetFault::InLine(LineFault::BadByte(line)) => at(3, line),
            SheetFault::UnknownLine(line) => at(4, line),
            SheetFault::WordCount(line) => at(5, line),
            SheetFault::InLine(LineFault::InWord(WordFault::BadNumber(line))) => at(6, line),
            SheetFault::Misplaced(line) => at(7, line),
            SheetFault::InPlan(fault) => fault.refusal(1),
            SheetFault::UnknownState(line) => at(9, line),
            SheetFault::TableFull(line) => at(12, line),
        }
    }
}

// A refusal of layer 1, by numbers as every refusal.
fn at(number: u8, place: usize) -> Refusal
    ensures { (result.layer ≡ 1) × (result.number ≡ number) × (result.place ≡ place) }
{
    Refusal {
        layer: 1,
        number,
        place,
    }
}
