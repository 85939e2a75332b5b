// One entry after another.
ghost use Rattle.std.specs.Prelude.{◌≡◌, ◌+◌, ◌-◌, ◌^◌, ◌<◌, length, if◌then◌else◌, Ok, Err, MatchResult, OnErr, nat_lt, slice_set};
ghost use Rattle.sheet.specs.Sheet.{Taken, boards_taken, ended, entry_taken, line_taken, nothing, wire_added, wire_taken};
ghost use Rattle.sheet.specs.Tracks.{TakesAs, Tracks};
ghost use Rattle.grammar.specs.declared.fault.SheetFault.TheVariants.{TableFull};
ghost use Rattle.text.specs.Views.{line_bytes};

use super::Reader;
use crate::counts::Counts;
use grammar::entry::{Entry, WireEntry, read_entry};
use grammar::fault::SheetFault;
use plan::ports::Ports;
use plan::wire::{End, Wire, board_count};
use text::line::Line;

// That a refusal leaves the table as it was is a clause of each call, and the library's words for it
// are as short as a name would be.
impl Reader {
    // Nothing is taken yet.
    pub(crate) fn new() -> Reader
        ensures { (start : _) → Tracks result start start nothing }
    {
        Reader {
            boards: None,
            wires: 0,
            ports: Ports::new(),
        }
    }

    // The answer where a sheet of so many lines ends.
    pub(crate) fn finish(&self, lines: usize) -> Result<Counts, SheetFault>
        requires { lines < 2 ^ 64 - 1 }
        ensures { (t : Taken) (table start : _) → Tracks self.now table start t → result ≡ ended (lines + 1) t t.boards }
    {
        let boards = self.boards.ok_or(SheetFault::Misplaced(lines + 1))?;
        Ok(Counts {
            boards,
            wires: self.wires,
        })
    }

    // Writes a wire behind those taken, if the table has a record left.
    fn store(&mut self, wire: Wire, line: usize, table: &mut [Wire]) -> Result<(), SheetFault>
        ensures answer { result ≡ (if nat_lt self.old.wires (length table.old) then Ok tt else Err (TableFull line)) }
        ensures stored { MatchResult result (λ _. (table.new ≡ slice_set table.old self.old.wires wire) × (self.new.wires ≡ self.old.wires + 1)) (λ _. (table.new ≡ table.old) × (self.new.wires ≡ self.old.wires)) }
        ensures boards { self.new.boards ≡ self.old.boards }
        ensures ports { self.new.ports ≡ self.old.ports }
    {
        if self.wires >= table.len() {
            return Err(SheetFault::TableFull(line));
        }
        table[self.wires] = wire;
        self.wires += 1;
        Ok(())
    }

    // Takes a wire that fits the plan.
    fn add_wire(
        &mut self,
        count: u8,
        wire: Wire,
        line: usize,
        table: &mut [Wire],
    ) -> Result<(), SheetFault>
        ensures took { TakesAs (λ room t. wire_added room line count t wire) self.old table.old result self.new table.new }
        ensures refused { OnErr result (table.new ≡ table.old) }
    {
        self.ports.admit(count, wire, line)?;
        self.store(wire, line, table)
    }

    // Takes the board count.
    fn take_boards(&mut self, number: u16, line: usize) -> Result<(), SheetFault>
        ensures { (table : _) → TakesAs (λ room t. boards_taken line number t t.boards) self.old table result self.new table }
    {
        if self.boards.is_some() {
            return Err(SheetFault::Misplaced(line));
        }
        self.boards = Some(board_count(number, line)?);
        Ok(())
    }

    // Takes a wire.
    fn take_wire(
        &mut self,
        entry: WireEntry,
        line: usize,
        table: &mut [Wire],
    ) -> Result<(), SheetFault>
        ensures took { TakesAs (λ room t. wire_taken room line entry t t.boards) self.old table.old result self.new table.new }
        ensures refused { OnErr result (table.new ≡ table.old) }
    {
        let count = self.boards.ok_or(SheetFault::Misplaced(line))?;
        let first = End::at(count, entry.first.board, entry.first.port, line)?;
        let second = End::at(count, entry.second.board, entry.second.port, line)?;
        let state = entry.state.ok_or(SheetFault::UnknownState(line))?;
        let wire = Wire {
            first,
            second,
            state,
        };
        self.add_wire(count, wire, line, table)
    }

    // Takes what line `line` was found to say. A refusal leaves the table as it was.
    fn take(&mut self, entry: Entry, line: usize, table: &mut [Wire]) -> Result<(), SheetFault>
        ensures took { TakesAs (λ room t. entry_taken room line t entry) self.old table.old result self.new table.new }
        ensures refused { OnErr result (table.new ≡ table.old) }
    {
        // No closures: each case holds other values.
        match entry {
            Entry::Skip => Ok(()),
            Entry::Boards(number) => self.take_boards(number, line),
            Entry::Wires(wire) => self.take_wire(wire, line, table),
        }
    }

    // Takes a line. A refusal leaves the table as it was.
    pub(crate) fn take_line(&mut self, line: &Line, table: &mut [Wire]) -> Result<(), SheetFault>
        ensures took { TakesAs (λ room t. line_taken room line.now.number t (line_bytes line.now)) self.old table.old result self.new table.new }
        ensures refused { OnErr result (table.new ≡ table.old) }
    {
        let entry = read_entry(line)?;
        self.take(entry, line.number, table)
    }
}
