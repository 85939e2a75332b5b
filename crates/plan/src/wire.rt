// Wires between the ports of boards.
ghost use Rattle.std.specs.Prelude.{◌≡◌, Some};
ghost use Rattle.plan.specs.Plan.{counted, end_at, end_fits};
ghost use Rattle.plan.specs.Printed.{end_text, wire_text};
ghost use Rattle.plan.specs.States.{state_word};

use crate::fault::PlanFault;
use std::fmt;

// The most boards a plan may have. Boards are numbered from 0.
pub const BOARDS: u16 = 128;

// How many ports each board has. They are numbered from 0.
pub const PORTS: u16 = 8;

// One end of a wire: a port of a board.
#[derive(Clone, Copy, Default, PartialEq, Eq)]
pub struct End {
    pub board: u8,
    pub port: u8,
}

// In which directions a wire works.
#[derive(Clone, Copy, Default)]
pub enum WireState {
    // Both directions work.
    Whole,
    // Only from the first end to the second.
    OutOnly,
    // Only from the second end to the first.
    BackOnly,
    // Neither direction works.
    #[default]
    Dead,
}

impl WireState {
    // The word for a state. It stays beside `Display`, as a public call.
    pub fn name(self) -> &'static str
        ensures { result.now ≡ state_word self }
    {
        match self {
            WireState::Whole => "ok",
            WireState::OutOnly => "out",
            WireState::BackOnly => "back",
            WireState::Dead => "dead",
        }
    }
}

// A wire joins two ports. By default it works in no direction: a record that no wire was written to.
#[derive(Clone, Copy, Default)]
pub struct Wire {
    pub first: End,
    pub second: End,
    pub state: WireState,
}

// The board count that `number` stands for: 1 to 128.
pub fn board_count(number: u16, place: usize) -> Result<u8, PlanFault>
    ensures { result ≡ counted number place }
{
    if number < 1 || number > BOARDS {
        return Err(PlanFault::OutOfRange(place));
    }
    // No `try_from`: it would add a way to fail.
    Ok(number as u8)
}

impl End {
    // The end at a board below `count` and a port below 8.
    pub fn at(count: u8, board: u16, port: u16, place: usize) -> Result<End, PlanFault>
        ensures { result ≡ end_at count board port place }
    {
        let (Ok(board), Ok(port)) = (u8::try_from(board), u8::try_from(port)) else {
            return Err(PlanFault::OutOfRange(place));
        };
        let end = End { board, port };
        if !end.fits(count) {
            return Err(PlanFault::OutOfRange(place));
        }
        Ok(end)
    }

    // Whether the end is at a board below `count` and a port below 8.
    pub(crate) fn fits(self, count: u8) -> bool
        ensures { result ≡ end_fits count self }
    {
        self.board < count && u16::from(self.port) < PORTS
    }
}

impl fmt::Display for End {
    ghost output = { λ e. Some (end_text e) };

    fn fmt<W: fmt::Write>(&self, f: &mut fmt::Formatter<W>) -> fmt::Result {
        let (board, port) = (self.board, self.port);
        write!(f, "board {board} port {port}")
    }
}

impl fmt::Display for WireState {
    ghost output = { λ s. Some (state_word s) };

    fn fmt<W: fmt::Write>(&self, f: &mut fmt::Formatter<W>) -> fmt::Result {
        f.write_str(self.name())
    }
}

impl fmt::Display for Wire {
    ghost output = { λ w. Some (wire_text w) };

    fn fmt<W: fmt::Write>(&self, f: &mut fmt::Formatter<W>) -> fmt::Result {
        let (first, second, state) = (self.first, self.second, self.state);
        write!(f, "{first}, {second}, {state}")
    }
}
