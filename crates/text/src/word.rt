// One word of a text, and the number that it may stand for.
ghost use Rattle.std.specs.Prelude.{◌≡◌, ◌≤◌, true, [], ◌∷◌, length};
ghost use Rattle.text.specs.Text.{numeral, plain};
ghost use Rattle.text.specs.Views.{bytes_of, kind_of, number_of, place_of, word_class};

use crate::fault::WordFault;

// What a word is made of: the cases of `Word` without their bytes, for what clauses compare.
#[derive(Clone, Copy)]
pub enum Class {
    // Small letters only.
    Letters,
    // Digits only.
    Digits,
    // Anything else.
    Mixed,
}

// A word of a text: the part of the text that it is, and the place of its first byte there.
#[derive(Clone, Copy)]
pub enum Word<'a> {
    // Small letters only, as all keywords are.
    Keyword(&'a [u8], usize),
    // Digits only.
    Number(&'a [u8], usize),
    // Anything else.
    Text(&'a [u8], usize),
}

// Whether the bytes are digits only, small letters only, or anything else.
fn class_of(bytes: &[u8]) -> Class
    ensures { result ≡ word_class bytes.now }
{
    if bytes.iter().all(|byte| matches!(*byte as char, '0'..='9')) {
        Class::Digits
    } else if bytes.iter().all(|byte| matches!(*byte as char, 'a'..='z')) {
        Class::Letters
    } else {
        Class::Mixed
    }
}

impl<'a> Word<'a> {
    // The word of these bytes at a place, by what it is made of.
    pub(crate) fn of(bytes: &'a [u8], place: usize) -> Word<'a>
        ensures bytes { bytes_of result ≡ bytes.now }
        ensures place { place_of result ≡ place }
        ensures kind { kind_of result ≡ word_class bytes.now }
    {
        match class_of(bytes) {
            Class::Letters => Word::Keyword(bytes, place),
            Class::Digits => Word::Number(bytes, place),
            Class::Mixed => Word::Text(bytes, place),
        }
    }

    // The number that the word, on the line of this number, stands for.
    pub fn number(&self, line: usize) -> Result<u16, WordFault>
        ensures { result ≡ number_of line self.now }
    {
        match self {
            Word::Number(digits, _) => read_number(digits, line),
            Word::Keyword(..) | Word::Text(..) => Err(WordFault::BadNumber(line)),
        }
    }
}

// One to three digits, the first of several not 0.
fn read_number(bytes: &[u8], line: usize) -> Result<u16, WordFault>
    ensures { result ≡ numeral line bytes.now }
{
    if !is_plain(bytes) {
        return Err(WordFault::BadNumber(line));
    }
    let mut value = 0u16;
    for byte in bytes {
        match *byte as char {
            '0'..='9' => value = value * 10 + u16::from(*byte - b'0'),
            _ => return Err(WordFault::BadNumber(line)),
        }
    }
    Ok(value)
}

// Whether there are one to three bytes, the first of several not the digit 0.
fn is_plain(bytes: &[u8]) -> bool
    ensures value { result ≡ plain bytes.now }
    ensures bound { result ≡ true → length bytes.now ≤ 3 }
{
    match bytes {
        [_] => true,
        [first, _] | [first, _, _] => *first != b'0',
        _ => false,
    }
}
