// The policy of the lowest free port.
ghost use Rattle.std.specs.Prelude.{bit_and};
ghost use Rattle.policy.specs.Rules.{free_rule};
ghost use Rattle.std.proofs.lemmas.Nat.{and_le_l};
ghost use Rattle.policy.specs.Bits.{has_and};
ghost use Rattle.policy.specs.Lows.{lowest_of_has};

use crate::mask::lowest_port_of;
use crate::offer::Offer;
use crate::rule::Policy;

// Picks the lowest port that is both permitted and free, or the lowest permitted if there is none,
// and remembers nothing.
#[derive(Clone, Copy)]
pub struct LowestFree;

impl Policy for LowestFree {
    ghost State = { Unit {0} };

    ghost state = { λ _. tt };

    ghost rule = { free_rule };

    ghost permitted = { λ s o small free some.
        lowest_of_has (bit_and o.permitted o.free) o.permitted small some (and_le_l o.permitted o.free)
        (has_and o.permitted o.free) };

    fn pick(&mut self, offer: Offer) -> u8 {
        lowest_port_of(offer.permitted & offer.free, offer.permitted)
    }
}
