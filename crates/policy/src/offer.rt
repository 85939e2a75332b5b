// What a policy is shown.

// The ports to pick from at a board. Masks have bit p for port p.
#[derive(Clone, Copy)]
pub struct Offer {
    // The board at which a port is picked.
    pub board: u8,
    // The board that is to be reached in the end.
    pub destination: u8,
    // The mask of the ports that may be picked.
    pub permitted: u8,
    // The mask of the ports whose channels are empty now. Only permitted ones count.
    pub free: u8,
}
