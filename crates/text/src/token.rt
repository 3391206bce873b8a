//! The tokens of a rule text.
ghost use Rattle.std.specs.Prelude.{◌≡◌, ◌<◌, ◌++◌, true, false, length, slice_index, All};
ghost use Rattle.rule.specs.declared.refusal.Refusal.TheVariants.{NoToken as no_token};
ghost use Rattle.rule.specs.Faults.{fault};
ghost use Rattle.text.specs.Tokens.{blank, name_byte};
ghost use Rattle.text.specs.Scanning.{Found};

use rule::{BinaryOperator, Fault, Refusal, UnaryOperator};

/// A token. A name shows its own bytes of the text; every other kind is always spelled alike.
#[derive(Clone, Copy)]
pub(crate) enum Token<'a> {
    Name(&'a [u8]),
    Colon,
    Open,
    Close,
    Constant(bool),
    Unary(UnaryOperator),
    Binary(BinaryOperator),
}

/// No token begins at `place`.
#[derive(Clone, Copy)]
pub(crate) struct NoToken {
    pub(crate) place: usize,
}

impl From<NoToken> for Fault {
    ghost from_gives = { λ e f. f ≡ fault no_token e.place };

    fn from(e: NoToken) -> Fault {
        Fault::at(Refusal::NoToken, e.place)
    }
}

pub(crate) fn is_blank(b: u8) -> bool
    ensures by_definition { result ≡ blank b }
{
    matches!(b, b' ' | b'\t' | b'\n')
}

fn is_name_byte(b: u8) -> bool
    ensures by_definition { result ≡ name_byte b }
{
    matches!(b, b'a'..=b'z' | b'0'..=b'9' | b'_')
}

/// The bytes at the front that pass the test, and the bytes after them.
// What it asks is that the test may be called, as each function that takes a closure does.
pub(crate) fn split_front<'a, F: Fn(u8) -> bool>(bytes: &'a [u8], test: F) -> (&'a [u8], &'a [u8])
    requires { F.IsAlwaysCallable test }
    ensures joined { bytes.now ≡ result.0.now ++ result.1.now }
    ensures each_passes { All (λ b. F.post test b true) result.0.now }
    ensures next_fails { 0 < length result.1.now → F.post test (slice_index result.1.now 0) false }
{
    bytes.split_at(bytes.iter().take_while(|b| test(**b)).count())
}

/// The token that begins the bytes, and the bytes after it.
#[tactic(auto, using(crate::proofs::Naming::token_fronts))]
pub(crate) fn token_at<'a>(bytes: &'a [u8]) -> Option<(Token<'a>, &'a [u8])>
    ensures token_that_begins { Found bytes.now result }
{
    match bytes {
        [b':', after @ ..] => Some((Token::Colon, after)),
        [b'(', after @ ..] => Some((Token::Open, after)),
        [b')', after @ ..] => Some((Token::Close, after)),
        [b'1', after @ ..] => Some((Token::Constant(true), after)),
        [b'0', after @ ..] => Some((Token::Constant(false), after)),
        [b'!', after @ ..] => Some((Token::Unary(UnaryOperator::Not), after)),
        [b'Y', after @ ..] => Some((Token::Unary(UnaryOperator::Yesterday), after)),
        [b'Z', after @ ..] => Some((Token::Unary(UnaryOperator::WeakYesterday), after)),
        [b'O', after @ ..] => Some((Token::Unary(UnaryOperator::Once), after)),
        [b'H', after @ ..] => Some((Token::Unary(UnaryOperator::Historically), after)),
        [b'&', after @ ..] => Some((Token::Binary(BinaryOperator::And), after)),
        [b'|', after @ ..] => Some((Token::Binary(BinaryOperator::Or), after)),
        [b'-', b'>', after @ ..] => Some((Token::Binary(BinaryOperator::Implies), after)),
        [b'<', b'-', b'>', after @ ..] => Some((Token::Binary(BinaryOperator::Iff), after)),
        [b'^', after @ ..] => Some((Token::Binary(BinaryOperator::Xor), after)),
        [b'S', after @ ..] => Some((Token::Binary(BinaryOperator::Since), after)),
        [b'W', after @ ..] => Some((Token::Binary(BinaryOperator::WeakSince), after)),
        [b'a'..=b'z', ..] => {
            let (name, after) = split_front(bytes, is_name_byte);
            Some((Token::Name(name), after))
        }
        _ => None,
    }
}
