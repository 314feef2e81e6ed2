//! The words of a line: each is a stretch of the input, with its line.
ghost use Rattle.std.specs.Prelude.{◌≡◌};
ghost use Rattle.std.specs.Option.{ok_or};
ghost use Rattle.text_words.specs.Letter.{letter_of, letter_word, unknown};
ghost use Rattle.text_words.specs.Token.{letter_in, number_in, at};
ghost use Rattle.faults.specs.declared.TextFault.TheVariants.{Malformed};

use crate::number::number;
use faults::TextFault;

/// The kinds of line, each told by its letter.
#[derive(Clone, Copy, PartialEq, Eq, Debug)]
pub enum Letter {
    Costs,
    Classes,
    Link,
    Set,
    Remove,
    Flip,
}

/// A character that tells no kind of line.
#[derive(Clone, Copy, PartialEq, Eq, Debug)]
pub struct UnknownLetter(pub char);

impl TryFrom<char> for Letter {
    type Error = UnknownLetter;

    ghost try_from_gives = { λ c r. r ≡ ok_or (letter_of c) (unknown c) };

    /// The kind of line that a letter tells.
    fn try_from(c: char) -> Result<Letter, UnknownLetter> {
        match c {
            'N' => Ok(Letter::Costs),
            'P' => Ok(Letter::Classes),
            'L' => Ok(Letter::Link),
            'S' => Ok(Letter::Set),
            'R' => Ok(Letter::Remove),
            'T' => Ok(Letter::Flip),
            _ => Err(UnknownLetter(c)),
        }
    }
}

/// A word of the input, with its line.
#[derive(Clone, Copy)]
pub enum Token<'a> {
    /// The first word of a line.
    Head(&'a [u8], u32),
    /// A later word.
    Word(&'a [u8], u32),
}

impl Token<'_> {
    /// The kind of line that this word tells.
    pub fn letter(self) -> Result<Letter, TextFault>
        ensures { result ≡ ok_or (letter_in self.entry) (Malformed (at self.entry)) }
    {
        match self {
            Token::Head(text, line) => letter_word(text).ok_or(TextFault::Malformed(line)),
            Token::Word(_, line) => Err(TextFault::Malformed(line)),
        }
    }

    /// The number that this word writes.
    pub fn number(self) -> Result<u32, TextFault>
        ensures { result ≡ ok_or (number_in self.entry) (Malformed (at self.entry)) }
    {
        match self {
            Token::Head(_, line) => Err(TextFault::Malformed(line)),
            Token::Word(text, line) => number(text).ok_or(TextFault::Malformed(line)),
        }
    }
}

/// A letter that is the whole word.
fn letter_word(text: &[u8]) -> Option<Letter>
    ensures { result ≡ letter_word text.now }
{
    match text {
        [b] => Letter::try_from(char::from(*b)).ok(),
        _ => None,
    }
}
