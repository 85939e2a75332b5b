// Why a list does not take a port.
use thiserror::Error;

// The reasons, in the order in which they are looked for.
#[derive(Clone, Copy, Debug, PartialEq, Eq, Error)]
pub enum ListFault {
    // The list has 127 ports.
    #[error("the list has 127 ports")]
    Full,
    // The port is above 7.
    #[error("the port is above 7")]
    NoPort,
}
