// The edges of policies.
use policy::offer::Offer;
use policy::rule::Policy;
use policy::turning::Turning;

// Ports 1, 2 and 4 are permitted.
fn offer_at(board: u8) -> Offer {
    Offer {
        board,
        destination: 0,
        permitted: 22,
        free: 0,
    }
}

#[test]
fn turning_goes_round(rt: HostRuntime) {
    let mut policy = Turning::new();
    for port in [1, 2, 4, 1] {
        assert_eq!(rt; policy.pick(offer_at(5)), port);
    }
    assert_eq!(rt; policy.pick(offer_at(200)), 1);
    assert_eq!(rt; policy.pick(offer_at(200)), 1);
    assert_eq!(rt; policy.pick(offer_at(5)), 2);
}
