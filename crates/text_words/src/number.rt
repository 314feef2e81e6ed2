//! A number of a line.
ghost use Rattle.std.specs.Prelude.{◌≡◌};
ghost use Rattle.text_words.specs.Number.{numeral, value_from};

/// The number that a word writes in decimal, with no leading zero.
pub(crate) fn number(word: &[u8]) -> Option<u32>
    ensures { result ≡ numeral word.now }
{
    match word {
        [] => None,
        [b'0', _, ..] => None,
        _ => digits(word),
    }
}

/// The number that decimal digits write.
fn digits(word: &[u8]) -> Option<u32>
    ensures { result ≡ value_from 0 word.now }
{
    let mut value = 0u32;
    for b in word {
        let digit = char::from(*b).to_digit(10)?;
        value = value.checked_mul(10)?.checked_add(digit)?;
    }
    Some(value)
}
