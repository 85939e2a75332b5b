// Picks for one offer after another.
ghost use Rattle.std.specs.Prelude.{◌≡◌, min, ◌++◌, length, take, drop};
ghost use Rattle.policy.specs.Picks.{picks_of, state_after};

use crate::offer::Offer;
use crate::rule::Policy;

// Shows the policy one offer after another, as many as there is room for picks, and writes the picks
// to the front of `picks`. What is behind them stays. Answers how many there are.
pub fn pick_each<P: Policy>(policy: &mut P, offers: &[Offer], picks: &mut [u8]) -> usize
    ensures count { result ≡ min (length offers.now) (length picks.old) }
    ensures written { picks.new ≡ picks_of P.rule (P.state policy.old) (take result offers.now) ++ drop result picks.old }
    ensures state { P.state policy.new ≡ state_after P.rule (P.state policy.old) (take result offers.now) }
{
    let count = offers.len().min(picks.len());
    // Tried `zip` with `picks.iter_mut()`: after it a proof knows the length of `picks`, not its bytes.
    for (i, offer) in offers[..count].iter().enumerate() {
        picks[i] = policy.pick(*offer);
    }
    count
}
