// The lines of a text, one after the other.
ghost use Rattle.std.specs.Prelude.{◌≤◌, length};

mod next;

// What is left of a text to be read for lines: from `at` on, after `number` lines.
// No slice of the rest: places are counted from the text's start, and the fields are public.
#[derive(Clone, Copy)]
pub struct Lines<'a> {
    pub text: &'a [u8],
    pub at: usize,
    pub number: usize,
    ghost counted: { number ≤ at },
    ghost within: { at ≤ length text.now },
}
