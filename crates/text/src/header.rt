//! The header of a rule text: its names and the colon.
ghost use Rattle.std.specs.Prelude.{◌≡◌, ◌+◌, ◌≤◌, length, All};

use super::cursor::Cursor;
use super::span::Span;
use super::strip::Strip;
use super::token::Token;
use rule::{Fault, Refusal};

/// The most bytes that a name may have.
const MOST_NAME_BYTES: usize = 12;

/// The names that are read: the text, and where they stand in it.
#[derive(Clone, Copy)]
pub(crate) struct Header<'h> {
    pub(crate) text: &'h [u8],
    pub(crate) names: &'h [Span],
    ghost inside: { All (λ n. n.start + n.len ≤ length text.now) names.now },
}

impl<'h> Header<'h> {
    ghost use Rattle.text.specs.Readers.{names_of, FoundAt, SignalTold, Admitted, HeadTold};

    // The three below take a name and its place: the place only fills the fault, so a struct of both would be no plainer.

    /// The number of the signal with this name. A name that is too long is refused at its place.
    fn find(self, name: &[u8], place: usize) -> Result<Option<usize>, Fault>
        ensures if_short { FoundAt (names_of self.entry) name.now place result }
    {
        if name.len() > MOST_NAME_BYTES {
            return Err(Fault::at(Refusal::LongName, place));
        }
        let found = self.names.iter().position(|span| &self.text[span.start..span.start + span.len]
            == name);
        Ok(found)
    }

    /// The number of the signal that a name in a formula, at `place`, stands for.
    pub(crate) fn signal(self, name: &[u8], place: usize) -> Result<usize, Fault>
        ensures if_declared { SignalTold (names_of self.entry) name.now place result }
    {
        self.find(name, place)?
            .ok_or(Fault::at(Refusal::UndeclaredName, place))
    }

    /// Whether the name, at `place`, may be the next of the header.
    fn admit(self, name: &[u8], place: usize) -> Result<(), Fault>
        ensures admitted { Admitted (names_of self.entry) name.now place result }
    {
        match self.find(name, place)? {
            None => Ok(()),
            Some(_) => Err(Fault::at(Refusal::RepeatedName, place)),
        }
    }

    /// Reads the names and the colon into an empty strip, and answers where the formula begins.
    // Asked of its one caller, `parse`, which makes the strip: arrays were tried there, and do not say how long they are.
    pub(crate) fn read(text: &'h [u8], spans: &mut Strip<Span>) -> Result<Cursor<'h>, Fault>
        requires sixteen_places { length spans.old.places.now ≡ 16 }
        requires empty { spans.old.filled ≡ 0 }
        ensures same_reference { spans.new.places.ghost_name ≡ spans.old.places.ghost_name }
        ensures header_read { HeadTold text.now spans.old.places.now spans.new.places.now spans.new.filled result }
    {
        let mut from = Cursor { rest: text, at: 0 };
        loop {
            let step = from.next_token()?;
            match step.token {
                Some(Token::Name(name)) => {
                    let header = Header {
                        text,
                        names: spans.laid(),
                    };
                    header.admit(name, step.place)?;
                    let span = Span {
                        start: step.place,
                        len: name.len(),
                    };
                    spans
                        .lay(span)
                        .ok_or(Fault::at(Refusal::ManyNames, step.place))?;
                    from = step.after;
                }
                Some(Token::Colon) if spans.filled > 0 => return Ok(step.after),
                _ => return Err(step.out_of_place()),
            }
        }
    }
}
