// What can be wrong with a line or a word, whatever the file is about.
ghost use Rattle.std.specs.Prelude.{◌≡◌};
ghost use Rattle.text.specs.declared.fault.LineFault.TheVariants.{InWord};

use thiserror::Error;

// A word that is not what is due in its place, with the number of its line.
#[derive(Clone, Copy, Debug, Error)]
pub enum WordFault {
    // A number is due, and the word is not one to three digits without a needless leading 0.
    #[error("a number is one to three digits without a needless leading 0")]
    BadNumber(usize),
}

// A line that cannot be read, with its number.
#[derive(Clone, Copy, Debug, Error)]
pub enum LineFault {
    // It has more than 60 bytes.
    #[error("the line has more than 60 bytes")]
    TooLong(usize),
    // It holds a byte outside 32 to 126.
    #[error("the line holds a byte outside 32 to 126")]
    BadByte(usize),
    // A word of it is at fault.
    #[error(transparent)]
    InWord(WordFault),
}

// Not thiserror's `#[from]`: that has no contract, and clauses name the error that `?` makes.
impl From<WordFault> for LineFault {
    ghost from_gives = { λ f r. r ≡ InWord f };

    fn from(f: WordFault) -> LineFault {
        LineFault::InWord(f)
    }
}
