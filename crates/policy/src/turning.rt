// The policy that goes round the ports.
ghost use Rattle.std.specs.Prelude.{◌≡◌, ℕ, ◌<◌, List, length, replicate};
ghost use Rattle.policy.specs.Rules.{kept, last_of, turning_rule};
ghost use Rattle.policy.specs.Turns.{Fair};
ghost use Rattle.policy.specs.Lows.{next_has};

use crate::mask::{HIGHEST_PORT, lowest_port_of, ports_above};
use crate::offer::Offer;
use crate::rule::Policy;
use std::marker::Model;

// How many boards have a last pick: those numbered 0 to 127. One number is no reason to use the crate
// `plan`: each change there would prove the policies anew.
const BOARDS: u8 = 128;

// Picks the next permitted port above the last pick at the board, after port 7 going on at 0.
// Contracts see the last picks: at a board's number the one there, 7 before the first, as the rule
// wants. A fixed table, as there is no heap here.
#[derive(Drop)]
pub struct Turning {
    last: [u8; 128],
}

impl Model for Turning {
    ghost Value = { List ℕ };

    ghost view = { λ t. t.last };

    ghost invariant = { λ t. length t.last ≡ 128 };
}

impl Turning {
    // Nothing was picked at any board.
    pub fn new() -> Turning
        ensures { result ≡ replicate 128 7 }
    {
        Turning {
            last: [HIGHEST_PORT; 128],
        }
    }

    // The last pick at the board; 7 for a board that has none.
    pub fn last_at(&self, board: u8) -> u8
        ensures value { result ≡ last_of self.now board }
        ensures wide { length self.now ≡ 128 }
    {
        let last = self.last.get(usize::from(board));
        last.copied().unwrap_or(HIGHEST_PORT)
    }

    // Keeps the port as the last pick at the offer's board, unless no port was permitted.
    fn keep(&mut self, offer: Offer, port: u8)
        ensures { self.new ≡ kept self.old offer port }
    {
        if offer.board < BOARDS && offer.permitted != 0 {
            self.last[usize::from(offer.board)] = port;
        }
    }

    // Picks the next port, and keeps it.
    fn turn(&mut self, offer: Offer) -> u8
        ensures answer { (result, self.new) ≡ turning_rule self.old offer }
        ensures wide { length self.old ≡ 128 }
    {
        let last = self.last_at(offer.board);
        let port = lowest_port_of(ports_above(last, offer.permitted), offer.permitted);
        self.keep(offer, port);
        port
    }
}

impl Policy for Turning {
    ghost State = { List ℕ };

    ghost state = { λ t. t };

    ghost rule = { turning_rule };

    ghost permitted = { λ s o small free some. next_has o.permitted (last_of s o.board) small some };

    // While the mask at a board stays, no port is picked there again before all its other ports.
    fn pick(&mut self, offer: Offer) -> u8
        ensures answer { (result, self.new) ≡ turning_rule self.old offer }
        ensures fair { offer.board < 128 → Fair turning_rule offer.board offer.permitted result self.new }
        ensures wide { (length self.old ≡ 128) × (length self.new ≡ 128) }
    {
        self.turn(offer)
    }
}
