// What a list of numbers of 16 bits is put into: an `ArrayVec`, or a lent slice from a place on.
ghost use Rattle.std.specs.Prelude.{[], ◌∷◌, ◌≡◌, leb, length, take};
ghost use Rattle.text.specs.Room.{Buffer, Kept, Put};

use crate::room::Lent;
use arrayvec::ArrayVec;

pub trait Entries {
    ghost buffer: { Self → Buffer };

    fn clear(&mut self)
        ensures { ((buffer self.new).items ≡ []) × Kept (buffer self.old) (buffer self.new) };

    fn is_full(&self) -> bool
        ensures { result ≡ leb (buffer self.now).room (length (buffer self.now).items) };

    // One more, where there is room for it.
    fn push(&mut self, entry: u16)
        ensures { Put (buffer self.old) (buffer self.new) (entry ∷ []) };
}

impl<const N: usize> Entries for ArrayVec<u16, N> {
    ghost buffer = { λ v. record { items = v.items; room = N; lender = 0 } };

    #[inline]
    fn clear(&mut self) {
        ArrayVec::clear(self);
    }

    #[inline]
    fn is_full(&self) -> bool {
        self.remaining_capacity() == 0
    }

    #[inline]
    fn push(&mut self, entry: u16) {
        let _ = self.try_push(entry);
    }
}

impl<'a> Entries for Lent<'a, u16> {
    ghost buffer = { λ l. record { items = take l.at l.slice.now; room = length l.slice.now; lender = l.slice.ghost_name } };

    fn clear(&mut self) {
        self.at = 0;
    }

    fn is_full(&self) -> bool {
        self.at >= self.slice.len()
    }

    fn push(&mut self, entry: u16) {
        if self.at < self.slice.len() {
            self.slice[self.at] = entry;
            self.at += 1;
        }
    }
}
