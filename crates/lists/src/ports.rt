// Making lists of ports, and looking at them.
ghost use Rattle.std.specs.Prelude.{◌≡◌, ◌≤◌, [], length, OnErr};
ghost use Rattle.lists.specs.Lists.{pushed};
ghost use Rattle.lists.specs.Views.{ports_of};

use super::{LONGEST, ListFault, PORTS, PortList};

impl PortList {
    // The empty list.
    pub fn new() -> PortList
        ensures { ports_of result ≡ [] }
    {
        PortList {
            len: 0,
            ports: [0; 127],
        }
    }

    // The ports of the list, in order.
    pub fn ports(&self) -> &[u8]
        ensures value { result.now ≡ ports_of self.now }
        ensures bound { length result.now ≤ 127 }
    {
        &self.ports[..usize::from(self.len)]
    }

    // One port more at the end; nothing changes where the list does not take it.
    pub fn push(&mut self, port: u8) -> Result<(), ListFault>
        ensures answer { (result, ports_of self.new) ≡ pushed port (ports_of self.old) }
        ensures kept { OnErr result (self.new ≡ self.old) }
    {
        if self.len >= LONGEST {
            return Err(ListFault::Full);
        }
        if port >= PORTS {
            return Err(ListFault::NoPort);
        }
        self.ports[usize::from(self.len)] = port;
        self.len += 1;
        Ok(())
    }
}
