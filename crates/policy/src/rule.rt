// What a policy is.
ghost use Rattle.std.specs.Prelude.{◌≡◌, ℕ, ◌<◌, true};
ghost use Rattle.policy.specs.Masks.{has};
ghost use Rattle.policy.specs.declared.offer.Offer.{Offer as OfferType};

use crate::offer::Offer;

// A way to pick one of the permitted ports: a state, and a rule.
pub trait Policy {
    // What the policy can remember.
    ghost State: { Type 0 };

    // What it remembers.
    ghost state: { Self → State };

    // The port that is picked in a state at an offer, and the next state.
    ghost rule: { State → OfferType → ℕ × State };

    // Picks a port by the rule.
    fn pick(&mut self, offer: Offer) -> u8
        ensures { (result, state self.new) ≡ rule (state self.old) offer };

    // In every state the port is a permitted one, if there is any.
    ghost permitted: { (s : State) (o : OfferType) → o.permitted < 256 → o.free < 256 → 0 < o.permitted → has o.permitted (rule s o).0 ≡ true };
}
