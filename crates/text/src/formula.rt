//! The formula of a rule text: tokens to rows, the inner formulas first.
ghost use Rattle.std.specs.Prelude.{◌≡◌, [], ◌∷◌};
ghost use Rattle.text.specs.Tokens.{opens};
ghost use Rattle.text.specs.Readers.{names_of, RowTold, FormulaTold};

use super::cursor::Cursor;
use super::header::Header;
use super::strip::Strip;
use super::token::Token;
use rule::{Fault, Refusal, Row};

/// A formula that was read: the number of its row, the place of its last token, and where reading goes on.
#[derive(Clone, Copy)]
pub(crate) struct Done<'a> {
    pub(crate) row: usize,
    pub(crate) last: usize,
    pub(crate) after: Cursor<'a>,
}

// `last` and `after` are two fields of what it answers; a struct for them would be taken apart at once.
/// Lays the row of a formula that ends with the token at `last`.
fn lay<'a>(
    rows: &mut Strip<Row>,
    row: Row,
    last: usize,
    after: Cursor<'a>,
) -> Result<Done<'a>, Fault>
    ensures same_reference { rows.new.places.ghost_name ≡ rows.old.places.ghost_name }
    ensures laid_if_room { RowTold rows.old row last after.entry rows.new result }
{
    let row = rows.lay(row).ok_or(Fault::at(Refusal::UnfitRows, last))?;
    Ok(Done { row, last, after })
}

/// Reads a formula and lays its rows.
#[cycle(bracket_formula)]
pub(crate) fn formula<'a>(
    from: Cursor<'a>,
    header: Header,
    rows: &mut Strip<Row>,
) -> Result<Done<'a>, Fault>
    ensures same_reference { rows.new.places.ghost_name ≡ rows.old.places.ghost_name }
    ensures formula_read { FormulaTold (names_of header.entry) [] from.entry rows.old rows.new result }
{
    let step = from.next_token()?;
    match step.token {
        Some(Token::Constant(value)) => lay(rows, Row::Constant(value), step.place, step.after),
        Some(Token::Name(name)) => {
            let signal = header.signal(name, step.place)?;
            lay(rows, Row::Signal(signal), step.place, step.after)
        }
        Some(Token::Unary(operator)) => {
            let inner = formula(step.after, header, rows)?;
            lay(
                rows,
                Row::Unary(operator, inner.row),
                inner.last,
                inner.after,
            )
        }
        Some(Token::Open) => bracket(step.after, header, rows),
        Some(Token::Colon | Token::Close | Token::Binary(_)) | None => Err(step.out_of_place()),
    }
}

/// Reads a bracket after its opening: a formula, an operator, a formula and the closing.
#[cycle(bracket_formula)]
fn bracket<'a>(from: Cursor<'a>, header: Header, rows: &mut Strip<Row>) -> Result<Done<'a>, Fault>
    ensures same_reference { rows.new.places.ghost_name ≡ rows.old.places.ghost_name }
    ensures bracket_read { FormulaTold (names_of header.entry) (opens ∷ []) from.entry rows.old rows.new result }
{
    let left = formula(from, header, rows)?;
    let (operator, after) = left.after.operator()?;
    let right = formula(after, header, rows)?;
    let (last, after) = right.after.closing()?;
    lay(
        rows,
        Row::Binary(operator, left.row, right.row),
        last,
        after,
    )
}
