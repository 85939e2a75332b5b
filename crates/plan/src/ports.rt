// Which ports already have a wire, so that each is given one at most.
ghost use Rattle.std.specs.Prelude.{◌≡◌, ◌+◌, ◌*◌, ◌<◌, ◌≤◌, false, Bool, List, [], ◌∷◌, ◌++◌, length, replicate, MatchResult};
ghost use Rattle.plan.specs.Marks.{Marks, entry_of};
ghost use Rattle.plan.specs.Plan.{admitted, taken};
ghost use Rattle.plan.specs.declared.wire.Wire.{Wire as WireType};

use crate::fault::PlanFault;
use crate::wire::{End, PORTS, Wire};
use std::marker::Model;

// The ports that have a wire. Contracts see the table: at 8 × board + port, for every board number
// that a byte can hold, whether that port has a wire. A fixed table, as there is no heap here.
#[derive(Drop)]
pub struct Ports {
    taken: [bool; 2048],
}

impl Model for Ports {
    ghost Value = { List Bool };

    ghost view = { λ p. p.taken };

    ghost invariant = { λ p. length p.taken ≡ 2048 };
}

// The table's entry for an end.
fn entry(end: End) -> usize
    ensures { result ≡ entry_of end }
{
    usize::from(end.board) * usize::from(PORTS) + usize::from(end.port)
}

// The clauses speak of any list of wires with these ports: which wires they were, and in which order,
// cannot be found from the table.
impl Ports {
    // No port has a wire.
    pub fn new() -> Ports
        ensures { result ≡ replicate 2048 false }
    {
        Ports {
            taken: [false; 2048],
        }
    }

    // Whether the port has a wire; a port above 7 has none.
    pub fn is_taken(&self, end: End) -> bool
        ensures taken { (before : List WireType) → Marks self.now before → end.port < 8 → result ≡ taken before end }
        ensures high { 8 ≤ end.port → result ≡ false }
        ensures wide { length self.now ≡ 2048 }
    {
        u16::from(end.port) < PORTS && self.taken[entry(end)]
    }

    // From now on both ports of the wire have one.
    fn mark(&mut self, wire: Wire)
        requires { (wire.first.port < 8) × (wire.second.port < 8) }
        ensures marks { (before : List WireType) → Marks self.old before → Marks self.new (before ++ wire ∷ []) }
        ensures wide { length self.new ≡ 2048 }
    {
        self.taken[entry(wire.first)] = true;
        self.taken[entry(wire.second)] = true;
    }

    // Takes a wire into the plan, after the wires that the table has marked: its ends are on boards
    // below `count` and ports below 8, on two boards, and neither port has a wire yet.
    // A refusal changes nothing.
    pub fn admit(&mut self, count: u8, wire: Wire, place: usize) -> Result<(), PlanFault>
        ensures answer { (before : List WireType) → Marks self.old before → result ≡ admitted count before wire place }
        ensures marks { MatchResult result (λ _. (before : List WireType) → Marks self.old before → Marks self.new (before ++ wire ∷ [])) (λ _. self.new ≡ self.old) }
        ensures wide { (length self.old ≡ 2048) × (length self.new ≡ 2048) }
    {
        // Looked at for the clause `wide`, as a model hides the length from callers.
        let _ = &self.taken;
        if !wire.first.fits(count) || !wire.second.fits(count) {
            return Err(PlanFault::OutOfRange(place));
        }
        if wire.first.board == wire.second.board {
            return Err(PlanFault::OneBoard(place));
        }
        if self.is_taken(wire.first) || self.is_taken(wire.second) {
            return Err(PlanFault::PortTaken(place));
        }
        self.mark(wire);
        Ok(())
    }
}
