// The calls on the table of rows.
ghost use Rattle.std.specs.Prelude.{◌≡◌, ◌<◌, ◌≤◌, length, OnErr, Some};
ghost use Rattle.lists.specs.Lists.{shared};
ghost use Rattle.rows.specs.Rows.{both_same, depth_of, extended, no_rows, shared_of, started, with_row};
ghost use Rattle.lists.specs.Views.{ports_at, ports_of};
ghost use Rattle.rows.specs.Views.{rows_in, rows_of};

use crate::{ROWS, RowFault, RowTable};
use lists::PortList;

// A list for no row.
fn no_lists() -> [Option<PortList>; 128]
    ensures { rows_in result ≡ no_rows }
{
    [None; 128]
}

// How many leading ports two lists share.
fn leading(a: &[u8], b: &[u8]) -> usize
    ensures value { result ≡ shared a.now b.now }
    ensures bound { result ≤ length a.now }
{
    a.iter().zip(b).take_while(|(x, y)| x == y).count()
}

impl RowTable {
    // No row has a list.
    pub fn new() -> RowTable
        ensures { rows_of result ≡ no_rows }
    {
        RowTable { lists: no_lists() }
    }

    // Empties all rows.
    pub fn clear(&mut self)
        ensures { rows_of self.new ≡ no_rows }
    {
        *self = RowTable::new();
    }

    // The row's list; none where it has none.
    pub fn get(&self, row: u8) -> Option<&PortList>
        ensures { ports_at result ≡ rows_of self.now row }
    {
        self.lists.get(usize::from(row))?.as_ref()
    }

    // Whether the row has just this list.
    pub fn has(&self, row: u8, list: &PortList) -> bool
        ensures { result ≡ both_same (Some (ports_of list.now)) (rows_of self.now row) }
    {
        self.get(row).is_some_and(|own| list.ports() == own.ports())
    }

    // Gives a row a list.
    fn put(&mut self, row: u8, list: PortList)
        requires { row < 128 }
        ensures { rows_of self.new ≡ with_row row (ports_of list) (rows_of self.old) }
    {
        self.lists[usize::from(row)] = Some(list);
    }

    // Makes a row the empty list; nothing changes for a row above 127.
    pub fn start(&mut self, row: u8) -> Result<(), RowFault>
        ensures answer { (result, rows_of self.new) ≡ started row (rows_of self.old) }
        ensures kept { OnErr result (self.new ≡ self.old) }
    {
        if row >= ROWS {
            return Err(RowFault::NoRow);
        }
        self.put(row, PortList::new());
        Ok(())
    }

    // Gives a row the source row's list with one port more at its end; nothing changes for a row above
    // 127, a source row without a list, or a list that does not take the port.
    pub fn extend(&mut self, row: u8, source: u8, port: u8) -> Result<(), RowFault>
        ensures answer { (result, rows_of self.new) ≡ extended row source port (rows_of self.old) }
        ensures kept { OnErr result (self.new ≡ self.old) }
    {
        if row >= ROWS {
            return Err(RowFault::NoRow);
        }
        let mut list = *self.get(source).ok_or(RowFault::NoList)?;
        list.push(port)?;
        self.put(row, list);
        Ok(())
    }

    // How many ports the row's list has; none where it has none.
    pub fn depth(&self, row: u8) -> Option<u8>
        ensures { result ≡ depth_of (rows_of self.now row) }
    {
        // No `try_from`, here and below: it would add a way to fail.
        Some(self.get(row)?.ports().len() as u8)
    }

    // How many leading ports the lists of two rows share; none where one has no list.
    pub fn shared(&self, a: u8, b: u8) -> Option<u8>
        ensures { result ≡ shared_of (rows_of self.now a) (rows_of self.now b) }
    {
        let one = self.get(a)?;
        let other = self.get(b)?;
        Some(leading(one.ports(), other.ports()) as u8)
    }
}
