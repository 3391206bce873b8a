//! A lent strip that fills from the front.
ghost use Rattle.std.specs.Prelude.{◌≡◌, ◌≤◌, length};

/// A lent strip, of which the first `filled` places are laid: a recorder has no heap for a `Vec`.
// Each call that fills it says that it is still the strip that was lent: the language asks that of a struct that holds a
// `&mut`.
#[derive(Drop)]
pub(crate) struct Strip<'s, T> {
    pub(crate) places: &'s mut [T],
    pub(crate) filled: usize,
    ghost within: { filled ≤ length places.now },
}

impl<T: Copy> Strip<'_, T> {
    ghost use Rattle.std.specs.Prelude.{take};
    ghost use Rattle.text.specs.Strips.{LaidTold};

    /// The places that are laid.
    pub(crate) fn laid(&self) -> &[T]
        ensures the_front { result.now ≡ take self.now.filled self.now.places.now }
    {
        &self.places[..self.filled]
    }

    /// Lays one more place and answers its number, if there is room.
    pub(crate) fn lay(&mut self, item: T) -> Option<usize>
        ensures same_reference { self.new.places.ghost_name ≡ self.old.places.ghost_name }
        ensures laid_if_room { LaidTold self.old.places.now self.old.filled item self.new.places.now self.new.filled result }
    {
        let number = self.filled;
        if number == self.places.len() {
            return None;
        }
        self.places[number] = item;
        self.filled += 1;
        Some(number)
    }
}
