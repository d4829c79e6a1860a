// What text is put into: an `ArrayVec`, or a lent slice from a place on.
ghost use Rattle.std.specs.Prelude.{ℕ, [], ◌∷◌, ◌+◌, ◌≡◌, length, map, take, min};
ghost use Rattle.text.specs.Room.{Buffer, Kept, Put};

use arrayvec::ArrayVec;

// What a byte is put as.
pub trait Change {
    ghost changed: { ℕ → ℕ };

    fn change(byte: u8) -> u8
        ensures { result ≡ changed byte };
}

pub trait Room {
    ghost buffer: { Self → Buffer };

    fn clear(&mut self)
        ensures { ((buffer self.new).items ≡ []) × Kept (buffer self.old) (buffer self.new) };

    // How many bytes more there is room for.
    fn left(&self) -> usize
        ensures { result + length (buffer self.now).items ≡ (buffer self.now).room };

    fn put_byte(&mut self, byte: u8)
        ensures { Put (buffer self.old) (buffer self.new) (byte ∷ []) };

    fn put(&mut self, text: &[u8])
        ensures { Put (buffer self.old) (buffer self.new) text.now };

    // Each byte changed. They are copied whole and changed where they stand, many in one step; one by one would take twice as long.
    fn put_each<C: Change>(&mut self, text: &[u8])
        ensures { Put (buffer self.old) (buffer self.new) (map C.changed text.now) };
}

impl<const N: usize> Room for ArrayVec<u8, N> {
    ghost buffer = { λ v. record { items = v.items; room = N; lender = 0 } };

    fn clear(&mut self) {
        ArrayVec::clear(self);
    }

    fn left(&self) -> usize {
        self.remaining_capacity()
    }

    #[inline]
    fn put_byte(&mut self, byte: u8) {
        let _ = self.try_push(byte);
    }

    #[inline]
    fn put(&mut self, text: &[u8]) {
        let fits = self.remaining_capacity().min(text.len());
        let _ = self.try_extend_from_slice(&text[..fits]);
    }

    fn put_each<C: Change>(&mut self, text: &[u8]) {
        let start = self.len();
        self.put(text);
        for byte in &mut self.as_mut_slice()[start..] {
            *byte = C::change(*byte);
        }
    }
}

// A lent slice, filled from a place on; a place past its end is its end.
#[derive(Drop)]
pub struct Lent<'a, T> {
    pub slice: &'a mut [T],
    pub at: usize,
}

impl<'a, T> Lent<'a, T> {
    // Where what was put ends.
    pub fn end(&self) -> usize
        ensures { result ≡ min self.now.at (length self.now.slice.now) }
    {
        self.at.min(self.slice.len())
    }
}

impl<'a> Room for Lent<'a, u8> {
    ghost buffer = { λ l. record { items = take l.at l.slice.now; room = length l.slice.now; lender = l.slice.ghost_name } };

    fn clear(&mut self) {
        self.at = 0;
    }

    fn left(&self) -> usize {
        self.slice.len() - self.end()
    }

    fn put_byte(&mut self, byte: u8) {
        self.put(&[byte]);
    }

    fn put(&mut self, text: &[u8]) {
        let start = self.end();
        let fits = (self.slice.len() - start).min(text.len());
        self.slice[start..start + fits].copy_from_slice(&text[..fits]);
        self.at = start + fits;
    }

    fn put_each<C: Change>(&mut self, text: &[u8]) {
        let start = self.end();
        let fits = (self.slice.len() - start).min(text.len());
        let part = &mut self.slice[start..start + fits];
        part.copy_from_slice(&text[..fits]);
        for byte in part {
            *byte = C::change(*byte);
        }
        self.at = start + fits;
    }
}
