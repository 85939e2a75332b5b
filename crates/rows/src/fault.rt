// Why a row does not take a list.
ghost use Rattle.std.specs.Prelude.{◌≡◌};
ghost use Rattle.rows.specs.declared.fault.RowFault.TheVariants.{InList};

use lists::ListFault;
use thiserror::Error;

// The reasons, in the order in which they are looked for.
#[derive(Clone, Copy, Debug, PartialEq, Eq, Error)]
pub enum RowFault {
    // The row's number is above 127.
    #[error("the row is above 127")]
    NoRow,
    // The source row has no list.
    #[error("the source row has no list")]
    NoList,
    // The source row's list does not take the port.
    #[error(transparent)]
    InList(ListFault),
}

// Not thiserror's `#[from]`: that has no contract, and clauses name the error that `?` makes.
impl From<ListFault> for RowFault {
    ghost from_gives = { λ f r. r ≡ InList f };

    fn from(f: ListFault) -> RowFault {
        RowFault::InList(f)
    }
}
