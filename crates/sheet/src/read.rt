// Reading a whole sheet.
ghost use Rattle.std.specs.Prelude.{◌≡◌, length};
ghost use Rattle.sheet.specs.Promises.{ReadsBack};
ghost use Rattle.sheet.specs.Sheet.{filled, sheet_answer, sheet_wires, size_check};

use crate::counts::Counts;
use crate::reader::Reader;
use grammar::fault::SheetFault;
use plan::wire::Wire;
use text::lines::Lines;

// The most bytes a sheet may have.
pub const SHEET_BYTES: usize = 32768;

fn check_size(sheet: &[u8]) -> Result<(), SheetFault>
    ensures { result ≡ size_check sheet.now }
{
    if sheet.len() > SHEET_BYTES {
        return Err(SheetFault::TooLong);
    }
    Ok(())
}

// Reads a sheet: its board count and the number of its wires, or why it is refused. The wires of
// the lines taken, all those before a faulty one, then stand first in the table, in their order;
// its other records are untouched. A good plan that was written as a sheet is read back.
pub fn read_sheet(sheet: &[u8], table: &mut [Wire]) -> Result<Counts, SheetFault>
    ensures answer { result ≡ sheet_answer (length table.old) sheet.now }
    ensures table { table.new ≡ filled (sheet_wires (length table.old) sheet.now) table.old }
    ensures plan { ReadsBack sheet.now table.old result table.new }
{
    check_size(sheet)?;
    let mut reader = Reader::new();
    // Tried `for line in &mut lines`: after it a proof does not know which line was the last.
    let mut lines = 0;
    for line in Lines::of(sheet) {
        reader.take_line(&line, table)?;
        lines = line.number;
    }
    reader.finish(lines)
}
