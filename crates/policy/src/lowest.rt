// The policy of the lowest port.
ghost use Rattle.policy.specs.Rules.{lowest_rule};
ghost use Rattle.policy.specs.Lows.{lowest_has};

use crate::mask::{NONE_PERMITTED, lowest_port};
use crate::offer::Offer;
use crate::rule::Policy;

// Picks the lowest permitted port, and remembers nothing.
#[derive(Clone, Copy)]
pub struct Lowest;

impl Policy for Lowest {
    ghost State = { Unit {0} };

    ghost state = { λ _. tt };

    ghost rule = { lowest_rule };

    ghost permitted = { λ s o small free some. lowest_has o.permitted small some };

    #[tactic(auto, using(crate::specs::Lows::lowest_or))]
    fn pick(&mut self, offer: Offer) -> u8 {
        lowest_port(offer.permitted).unwrap_or(NONE_PERMITTED)
    }
}
