//! One line: its letter, its numbers, and what they tell.
ghost use Rattle.std.specs.Prelude.{◌≡◌, ◌<◌, length, Ok, vec_capacity};
ghost use Rattle.std.specs.Option.{ok_or};
ghost use Rattle.std.specs.Result.{result_and};
ghost use Rattle.faults.specs.declared.TextFault.TheVariants.{Malformed};
ghost use Rattle.plant_lines.specs.Line.{item_of, link_of, set_of, only_of, numbers as numbers_of, line_at};
ghost use Rattle.text_words.specs.Split.{parts};

use crate::item::{Item, Kind};
use faults::TextFault;
use network::{Change, Ends, Node};
use text_words::{Letter, Token, cut};
use weights::Weight;

/// What the line `text` tells. Its numbers pass through `numbers`, which has room for as many as there are bytes.
pub fn read_line<W: Weight>(
    numbers: &mut Vec<u32>,
    text: &[u8],
    line: u32,
) -> Result<Item<W>, TextFault>
    requires { length text.now < vec_capacity numbers.old }
    ensures told { result ≡ line_at W.Weight.made line text.now }
    ensures room { vec_capacity numbers.new ≡ vec_capacity numbers.old }
{
    let Some((head, rest)) = cut(text, b' ') else {
        return Err(TextFault::Malformed(line));
    };
    let letter = Token::Head(head, line).letter()?;
    read_numbers(numbers, rest, line)?;
    item(letter, numbers.as_slice()).ok_or(TextFault::Malformed(line))
}

/// Leaves in `numbers` what all words of `text` write.
fn read_numbers(numbers: &mut Vec<u32>, text: &[u8], line: u32) -> Result<(), TextFault>
    requires { length text.now < vec_capacity numbers.old }
    ensures told { result_and result (Ok numbers.new.items) ≡ ok_or (numbers_of (parts 32 text.now)) (Malformed line) }
    ensures room { vec_capacity numbers.new ≡ vec_capacity numbers.old }
{
    numbers.clear();
    for word in text.split(|b| *b == b' ') {
        numbers.push_reserved(Token::Word(word, line).number()?);
    }
    Ok(())
}

/// What a letter tells with these numbers.
fn item<W: Weight>(letter: Letter, xs: &[u32]) -> Option<Item<W>>
    ensures { result ≡ item_of W.Weight.made letter xs.now }
{
    match letter {
        Letter::Costs => Some(Item::Head(Kind::Cost, only(xs)?)),
        Letter::Classes => Some(Item::Head(Kind::Class, only(xs)?)),
        Letter::Link => link(xs),
        Letter::Set => set(xs),
        Letter::Remove => Some(Item::Change(Change::Remove(only(xs)?))),
        Letter::Flip => Some(Item::Change(Change::Flip(only(xs)?))),
    }
}

/// The only number of a line.
fn only(xs: &[u32]) -> Option<u32>
    ensures { result ≡ only_of xs.now }
{
    match xs {
        [x] => Some(*x),
        _ => None,
    }
}

/// A link: two ends and a weight.
fn link<W: Weight>(xs: &[u32]) -> Option<Item<W>>
    ensures { result ≡ link_of W.Weight.made xs.now }
{
    let [a, b, rest @ ..] = xs else {
        return None;
    };
    let w = weight(rest)?;
    let ends = Ends {
        a: Node(*a),
        b: Node(*b),
    };
    Some(Item::Link(ends, w))
}

/// A setting: a link and a weight.
fn set<W: Weight>(xs: &[u32]) -> Option<Item<W>>
    ensures { result ≡ set_of W.Weight.made xs.now }
{
    let [k, rest @ ..] = xs else {
        return None;
    };
    let w = weight(rest)?;
    Some(Item::Change(Change::Set(*k, w)))
}

/// A weight of the file's kind, from as many numbers as the kind takes.
fn weight<W: Weight>(xs: &[u32]) -> Option<W>
    ensures { result ≡ W.Weight.made xs.now }
{
    if xs.len() != W::NUMBERS {
        return None;
    }
    W::from_numbers(xs)
}
