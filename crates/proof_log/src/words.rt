//! The words of a line, one after the other, and what each of them writes.

ghost use Rattle.std.specs.Prelude.{◌≡◌, ◌∷◌, position};
ghost use Rattle.proof_log.specs.Reading.{words_left};
ghost use Rattle.proof_log.specs.Words.{is_space, line_words, plain_number_of, small_number_of, variable_of, route_of};
ghost use Rattle.proof_log.specs.Words.{clause_number_of, literal_of};

use rail_base::route::RouteNo;
use rail_text::number;
use sat_clause::Lit;

/// The greatest number of 18 digits.
const GREATEST: u64 = 999_999_999_999_999_999;

/// The first word, and the text after the space that ends it. `None` after the last word.
pub fn first_word(text: &[u8]) -> (&[u8], Option<&[u8]>)
    ensures { line_words text.now ≡ result.0.now ∷ words_left result.1 }
{
    match word_end(text) {
        Some(end) => (&text[..end], Some(&text[end + 1..])),
        None => (text, None),
    }
}

/// The number that 1 to 18 digits with no leading zero write.
pub fn plain_number(word: &[u8]) -> Option<u64>
    ensures { result ≡ plain_number_of word.now }
{
    if word.len() > 18 || word.len() > 1 && word[0] == b'0' {
        return None;
    }
    number(word)
}

/// A number of at most 32 bits, which may be 0.
pub fn small_number(word: &[u8]) -> Option<u32>
    ensures { result ≡ small_number_of word.now }
{
    match plain_number(word) {
        Some(number) if number <= 4_294_967_295 => Some(number as u32),
        _ => None,
    }
}

/// The number of a route in a path.
pub fn route(word: &[u8]) -> Option<RouteNo>
    ensures { result ≡ route_of word.now }
{
    let number = variable(word)?;
    Some(RouteNo(number))
}

/// The number of a clause.
pub fn clause_number(word: &[u8]) -> Option<u64>
    ensures { result ≡ clause_number_of word.now }
{
    match plain_number(word) {
        Some(id) if 1 <= id && id <= GREATEST => Some(id),
        _ => None,
    }
}

/// The literal that a word writes.
pub fn literal(word: &[u8]) -> Option<Lit>
    ensures { result ≡ literal_of word.now }
{
    let (negated, digits) = match word {
        [b'-', digits @ ..] => (true, digits),
        _ => (false, word),
    };
    let var = variable(digits)?;
    Some(Lit { var, negated })
}

/// The place of the first space.
fn word_end(text: &[u8]) -> Option<usize>
    ensures { result ≡ position is_space text.now }
{
    text.iter().position(|byte| *byte == b' ')
}

/// The number of a variable.
fn variable(word: &[u8]) -> Option<u32>
    ensures { result ≡ variable_of word.now }
{
    match plain_number(word) {
        Some(var) if 1 <= var && var <= 4_294_967_295 => Some(var as u32),
        _ => None,
    }
}
