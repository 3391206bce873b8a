//! Where the reading of a rule text stands, and what comes next there.
ghost use Rattle.std.specs.Prelude.{◌+◌, ◌^◌, ◌<◌, length};

use super::token::{NoToken, Token, is_blank, split_front, token_at};
use rule::{BinaryOperator, Fault, Refusal};

/// Where reading stands: the bytes that are left, and the place of the first of them.
#[derive(Clone, Copy)]
pub(crate) struct Cursor<'a> {
    pub(crate) rest: &'a [u8],
    pub(crate) at: usize,
    ghost fits: { at + length rest.now < 2 ^ 64 },
}

/// The next token, or none at the end of the text; its place, and where reading goes on.
#[derive(Clone, Copy)]
pub(crate) struct Step<'a> {
    pub(crate) token: Option<Token<'a>>,
    pub(crate) place: usize,
    pub(crate) after: Cursor<'a>,
}

impl Step<'_> {
    ghost use Rattle.std.specs.Prelude.{◌≡◌};
    ghost use Rattle.rule.specs.declared.refusal.Refusal.TheVariants.{OutOfPlace};
    ghost use Rattle.rule.specs.Faults.{fault};

    /// The fault of a token that may not stand here, or of the end of the text.
    pub(crate) fn out_of_place(self) -> Fault
        ensures at_its_place { result ≡ fault OutOfPlace self.entry.place }
    {
        Fault::at(Refusal::OutOfPlace, self.place)
    }
}

impl<'a> Cursor<'a> {
    ghost use Rattle.text.specs.Scanning.{Scanned};
    ghost use Rattle.text.specs.Readers.{OperatorTold, ClosingTold, EndTold};

    /// The next token, past the blanks.
    pub(crate) fn next_token(self) -> Result<Step<'a>, NoToken>
        ensures next_item { Scanned self.entry result }
    {
        let (gap, here) = split_front(self.rest, is_blank);
        let place = self.at + gap.len();
        if here.is_empty() {
            return Ok(Step {
                token: None,
                place,
                after: Cursor {
                    rest: here,
                    at: place,
                },
            });
        }
        let (token, rest) = token_at(here).ok_or(NoToken { place })?;
        let at = place + (here.len() - rest.len());
        Ok(Step {
            token: Some(token),
            place,
            after: Cursor { rest, at },
        })
    }

    // The three below differ in the token that they take. A closure that picks it would hold the same match.

    /// The operator between the two formulas of a bracket.
    pub(crate) fn operator(self) -> Result<(BinaryOperator, Cursor<'a>), Fault>
        ensures if_next { OperatorTold self.entry result }
    {
        let step = self.next_token()?;
        match step.token {
            Some(Token::Binary(operator)) => Ok((operator, step.after)),
            _ => Err(step.out_of_place()),
        }
    }

    /// A closing bracket, and its place.
    pub(crate) fn closing(self) -> Result<(usize, Cursor<'a>), Fault>
        ensures if_next { ClosingTold self.entry result }
    {
        let step = self.next_token()?;
        match step.token {
            Some(Token::Close) => Ok((step.place, step.after)),
            _ => Err(step.out_of_place()),
        }
    }

    /// Checks that nothing but blanks is left.
    pub(crate) fn end(self) -> Result<(), Fault>
        ensures only_blanks { EndTold self.entry result }
    {
        let step = self.next_token()?;
        match step.token {
            None => Ok(()),
            Some(_) => Err(step.out_of_place()),
        }
    }
}
