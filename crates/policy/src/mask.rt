// The ports of masks.
ghost use Rattle.std.specs.Prelude.{◌≡◌};
ghost use Rattle.policy.specs.Masks.{above, lowest_in, lowest_of};

// The highest port of a board.
pub(crate) const HIGHEST_PORT: u8 = 7;

// What a policy answers where no port is permitted, as its rule wants.
pub(crate) const NONE_PERMITTED: u8 = 0;

// The lowest port of the mask.
pub(crate) fn lowest_port(mask: u8) -> Option<u8>
    ensures { result ≡ lowest_in mask }
{
    if mask == 0 {
        return None;
    }
    // No `try_from`: it would add a way to fail.
    Some(mask.trailing_zeros() as u8)
}

// The lowest preferred port, or the lowest of the others if none is preferred.
#[tactic(auto, using(crate::specs::Lows::lowest_or))]
pub(crate) fn lowest_port_of(preferred: u8, others: u8) -> u8
    ensures { result ≡ lowest_of preferred others }
{
    // Not `or`, which asked both masks each time.
    let ports = if preferred == 0 { others } else { preferred };
    lowest_port(ports).unwrap_or(NONE_PERMITTED)
}

// The ports of the mask above this one.
pub(crate) fn ports_above(port: u8, mask: u8) -> u8
    ensures { result ≡ above port mask }
{
    if port >= HIGHEST_PORT {
        return 0;
    }
    mask >> (port + 1) << (port + 1)
}
