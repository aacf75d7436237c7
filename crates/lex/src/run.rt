// Runs of letters and digits: words and numbers.
ghost use Rattle.std.specs.Prelude.{◌≡◌, ◌≤◌, length};
ghost use Rattle.std.specs.Char.{is_ascii_alphanumeric};
ghost use Rattle.std.specs.List.{prefix_len};
ghost use Rattle.lex.specs.Runs.{all_digits, is_word, is_number, value_of, run_lexeme, read};

use crate::fault::{Fault, FaultKind};
use crate::token::{Place, Token};

// How many bytes at the front are letters or digits.
pub fn run_length(bytes: &[u8]) -> usize
    ensures { result ≡ prefix_len is_ascii_alphanumeric bytes.now }
{
    bytes
        .iter()
        .take_while(|byte| byte.is_ascii_alphanumeric())
        .count()
}

fn all_digits(bytes: &[u8]) -> bool
    ensures { result ≡ all_digits bytes.now }
{
    bytes.iter().all(|byte| byte.is_ascii_digit())
}

fn is_word(first: u8, rest: &[u8]) -> bool
    ensures { result ≡ is_word first rest.now }
{
    first.is_ascii_alphabetic() && rest.len() < 8
}

fn is_number(first: u8, rest: &[u8]) -> bool
    ensures { result ≡ is_number first rest.now }
{
    first.is_ascii_digit()
        && all_digits(rest)
        && rest.len() < 5
        && (first != b'0' || rest.is_empty())
}

// The number that a few digits write.
fn value(digits: &[u8]) -> u32
    requires { length digits.now ≤ 5 }
    ensures { result ≡ value_of digits.now }
{
    // a loop: in a `fold` it stayed open that the product and the sum fit, which rests on how many digits came before
    let mut value = 0;
    for digit in digits {
        value = value * 10 + u32::from(digit.saturating_sub(b'0'));
    }
    value
}

// What a run is, by its first byte and the rest.
pub fn run_token<'s>(run: &'s [u8], place: Place) -> Result<Token<'s>, Fault>
    ensures { read result ≡ run_lexeme place run.now }
{
    let fault = Fault {
        kind: FaultKind::OtherRun,
        place,
    };
    match run {
        [] => Err(fault),
        [first, rest @ ..] => {
            if is_word(*first, rest) {
                Ok(Token::Word(run, place))
            } else if is_number(*first, rest) {
                Ok(Token::Number(run, value(run), place))
            } else {
                Err(fault)
            }
        }
    }
}
