// What each answer of the program `schedule` reads like, written to a buffer behind what stands there: an `ArrayVec`, or a lent slice from a place on.
#![tactic(auto, using(crate::proofs::Texts::in_turn))]

mod named;
#[cfg(test)]
mod tests;

ghost use Rattle.std.specs.Prelude.{ℕ, None, List, [], ◌∷◌, ◌++◌, ◌≡◌, map};
ghost use Rattle.wording.specs.Words.{ascii};
ghost use Rattle.wording.specs.Print.{written, spaced, bit_character};
ghost use Rattle.wording.specs.Replies.{refused_text, answered, tuning_text, parts_text, paging_text, place_text, blocks_text, owner_text, content_text, slot_text, found_text, reason_text, numbered_reason_text, error_with};
ghost use Rattle.text.specs.Room.{Put};

use answers::Refusal;
use arrayvec::ArrayVec;
use clock::Frame;
use groups::PagingBlock;
use hops::Tuning;
use maps::{Blocks, Content, Place};
pub use named::Named;
use slots::{Found, OnAir};
use text::print::{put, put_bits, put_number, put_numbers};
use text::room::Room;
use wording::Reason;

// What an accepted call gives, as it is printed behind "ok" in any room.
pub trait ReplyIn<B: Room> {
    ghost text: { Self → List ℕ };

    fn print_in(self, out: &mut B)
        ensures { Put (B.buffer out.old) (B.buffer out.new) (text self) };
}

// Nothing but "ok".
impl<B: Room> ReplyIn<B> for () {
    ghost text = { λ u. [] };

    fn print_in(self, out: &mut B) {}
}

// A frame number.
impl<B: Room> ReplyIn<B> for u32 {
    ghost text = { λ n. spaced (n ∷ []) };

    fn print_in(self, out: &mut B) {
        put_numbers(out, &[self]);
    }
}

impl<B: Room> ReplyIn<B> for Tuning {
    ghost text = { tuning_text };

    fn print_in(self, out: &mut B) {
        put_numbers(out, &[self.arfcn, self.mai, self.position]);
    }
}

impl<B: Room> ReplyIn<B> for PagingBlock {
    ghost text = { paging_text };

    fn print_in(self, out: &mut B) {
        put_numbers(out, &[self.tn, self.block, self.frame]);
    }
}

impl<B: Room> ReplyIn<B> for Frame {
    ghost text = { parts_text };

    fn print_in(self, out: &mut B) {
        put_numbers(out, &[self.t1, self.t2, self.t3]);
        match self.prime() {
            Some(prime) => put_numbers(out, &[prime]),
            None => put(out, b" -"),
        }
    }
}

impl<B: Room> ReplyIn<B> for Content {
    ghost text = { λ c. content_text c None };

    fn print_in(self, out: &mut B) {
        content(out, self, None);
    }
}

impl<B: Room> ReplyIn<B> for OnAir {
    ghost text = { slot_text };

    fn print_in(self, out: &mut B) {
        self.tuning.print_in(out);
        content(out, self.content, Some(self.owner));
    }
}

impl<B: Room> ReplyIn<B> for Option<Found> {
    ghost text = { found_text };

    fn print_in(self, out: &mut B) {
        match self {
            Some(found) => {
                put_numbers(out, &[found.line]);
                found.on_air.print_in(out);
            }
            None => put(out, b" nobody"),
        }
    }
}

// The bits of a burst or of its payload.
#[derive(Clone, Copy)]
pub struct Bits<'a>(pub &'a [u8]);

impl<'a, B: Room> ReplyIn<B> for Bits<'a> {
    ghost text = { λ b. ascii " " ++ map bit_character b.0.now };

    fn print_in(self, out: &mut B) {
        put(out, b" ");
        put_bits(out, self.0);
    }
}

// The same of an `ArrayVec` alone. Its type says what its room is, so one who writes a reply of his own shows only what is written.
pub trait Reply<const N: usize> {
    ghost text: { Self → List ℕ };

    fn print(self, out: &mut ArrayVec<u8, N>)
        ensures { out.new.items ≡ written N out.old.items (text self) };
}

// Whatever is printed in any room is one.
impl<T: ReplyIn<ArrayVec<u8, N>>, const N: usize> Reply<N> for T {
    ghost text = { T.ReplyIn.text };

    fn print(self, out: &mut ArrayVec<u8, N>) {
        self.print_in(out);
    }
}

// Any of them, as `answer_in` takes it.
struct Told<T>(T);

impl<T: Reply<N>, const N: usize> ReplyIn<ArrayVec<u8, N>> for Told<T> {
    ghost text = { λ t. T.text t.0 };

    fn print_in(self, out: &mut ArrayVec<u8, N>) {
        let Told(reply) = self;
        reply.print(out);
    }
}

// "ok" and what an accepted call gives, or the refusal.
pub fn answer_in<T: ReplyIn<B>, B: Room>(out: &mut B, answer: Result<T, Refusal>)
    ensures { Put (B.buffer out.old) (B.buffer out.new) (answered answer T.text) }
{
    match answer {
        Ok(value) => {
            put(out, b"ok");
            value.print_in(out);
            put(out, b"\n");
        }
        Err(refusal) => refused(out, refusal),
    }
}

// The same to an `ArrayVec`, of any `Reply`.
pub fn answer<T: Reply<N>, const N: usize>(out: &mut ArrayVec<u8, N>, answer: Result<T, Refusal>)
    ensures { out.new.items ≡ written N out.old.items (answered answer T.text) }
{
    answer_in(out, answer.map(Told));
}

// A refusal, and the value that comes with some.
pub fn refused<B: Room>(out: &mut B, refusal: Refusal)
    ensures { Put (B.buffer out.old) (B.buffer out.new) (refused_text refusal) }
{
    put(out, b"refused");
    match refusal.value() {
        Some(value) => put_numbers(out, &[refusal.number(), value]),
        None => put_numbers(out, &[refusal.number()]),
    }
    put(out, b"\n");
}

// The name of a channel, by its kind or its number. A function, no `Display`: what is printed is cut where the buffer has no room, and of that no `write!` has a
// clause.
pub fn channel_name<K: Named>(kind: K) -> &'static [u8]
    ensures { result.now ≡ K.named kind }
{
    kind.name()
}

fn owner<B: Room>(out: &mut B, owner: Option<u32>)
    ensures { Put (B.buffer out.old) (B.buffer out.new) (owner_text owner) }
{
    if let Some(owner) = owner {
        put_numbers(out, &[owner]);
    }
}

// Idle, or a channel with its subchannel, the owner where it is told, and its blocks.
fn content<B: Room>(out: &mut B, content: Content, told: Option<u32>)
    ensures { Put (B.buffer out.old) (B.buffer out.new) (content_text content told) }
{
    match content {
        Content::Idle => put(out, b" idle"),
        Content::Channel(burst) => {
            put(out, b" ");
            put(out, channel_name(burst.kind));
            put_numbers(out, &[burst.subchannel]);
            owner(out, told);
            blocks(out, burst.blocks);
        }
    }
}

fn place<B: Room>(out: &mut B, place: Place)
    ensures { Put (B.buffer out.old) (B.buffer out.new) (place_text place) }
{
    put_numbers(out, &[place.block, place.place]);
}

fn blocks<B: Room>(out: &mut B, blocks: Blocks)
    ensures { Put (B.buffer out.old) (B.buffer out.new) (blocks_text blocks) }
{
    match blocks {
        Blocks::One(only) => place(out, only),
        Blocks::Two(first, second) => {
            place(out, first);
            place(out, second);
        }
    }
}

// Why a line is no command: a reason, or the number of one.
pub trait Why {
    ghost told: { Self → List ℕ };

    fn words(self) -> &'static [u8]
        ensures { result.now ≡ told self };
}

impl Why for Reason {
    ghost told = { reason_text };

    fn words(self) -> &'static [u8] {
        match self {
            Reason::UnknownCommand => b"unknown command",
            Reason::UnknownBurst => b"unknown burst",
            Reason::TooFewWords => b"too few words",
            Reason::TooManyWords => b"too many words",
            Reason::NotANumber => b"not a number",
            Reason::NumberTooLarge => b"number too large",
            Reason::CountTooLarge => b"count too large",
            Reason::LineTooLong => b"line too long",
        }
    }
}

// From 1 on, in the order above; another number has no words.
impl Why for u32 {
    ghost told = { numbered_reason_text };

    fn words(self) -> &'static [u8] {
        match self {
            1 => Reason::UnknownCommand.words(),
            2 => Reason::UnknownBurst.words(),
            3 => Reason::TooFewWords.words(),
            4 => Reason::TooManyWords.words(),
            5 => Reason::NotANumber.words(),
            6 => Reason::NumberTooLarge.words(),
            7 => Reason::CountTooLarge.words(),
            8 => Reason::LineTooLong.words(),
            _ => b"",
        }
    }
}

// The answer to a line that is no command.
pub fn error<B: Room, W: Why>(out: &mut B, number: u64, why: W)
    ensures { Put (B.buffer out.old) (B.buffer out.new) (error_with number (W.told why)) }
{
    put(out, b"error ");
    put_number(out, number);
    put(out, b" ");
    put(out, why.words());
    put(out, b"\n");
}
