// `answer_in` at the type that each call gives writes the sentence of that call; `answer` at any such type writes the same, and at one that is written
// elsewhere its text.
ghost use Rattle.std.specs.Prelude.{[], ◌∷◌, ◌≡◌};
ghost use Rattle.wording.specs.Print.{written, Appended};
ghost use Rattle.wording.specs.Replies.{answered, numbered_channel_text, channel_text, numbered_reason_text, error_with, error_text, done_text, number_text, hop_text, page_text, split_text, map_text, line_text, who_text, bits_text};

use crate::{Bits, Reply, ReplyIn, answer, answer_in, channel_name, error, refused};
use answers::Refusal;
use arrayvec::ArrayVec;
use clock::Frame;
use groups::PagingBlock;
use hops::Tuning;
use maps::{Blocks, Burst, Content, Kind, Place};
use slots::{Found, OnAir};
use text::print::{put, put_byte};
use text::room::Lent;
use wording::Reason;

fn done(out: &mut ArrayVec<u8, 64>, reply: Result<(), Refusal>)
    ensures { out.new.items ≡ written 64 out.old.items (done_text reply) }
{
    answer_in(out, reply);
}

fn number(out: &mut ArrayVec<u8, 64>, reply: Result<u32, Refusal>)
    ensures { out.new.items ≡ written 64 out.old.items (number_text reply) }
{
    answer_in(out, reply);
}

fn hop(out: &mut ArrayVec<u8, 64>, reply: Result<Tuning, Refusal>)
    ensures { out.new.items ≡ written 64 out.old.items (hop_text reply) }
{
    answer_in(out, reply);
}

fn page(out: &mut ArrayVec<u8, 64>, reply: Result<PagingBlock, Refusal>)
    ensures { out.new.items ≡ written 64 out.old.items (page_text reply) }
{
    answer_in(out, reply);
}

fn split(out: &mut ArrayVec<u8, 64>, reply: Result<Frame, Refusal>)
    ensures { out.new.items ≡ written 64 out.old.items (split_text reply) }
{
    answer_in(out, reply);
}

fn map(out: &mut ArrayVec<u8, 64>, reply: Result<Content, Refusal>)
    ensures { out.new.items ≡ written 64 out.old.items (map_text reply) }
{
    answer_in(out, reply);
}

fn line(out: &mut ArrayVec<u8, 64>, reply: Result<OnAir, Refusal>)
    ensures { out.new.items ≡ written 64 out.old.items (line_text reply) }
{
    answer_in(out, reply);
}

fn who(out: &mut ArrayVec<u8, 64>, reply: Result<Option<Found>, Refusal>)
    ensures { out.new.items ≡ written 64 out.old.items (who_text reply) }
{
    answer_in(out, reply);
}

fn bits(out: &mut ArrayVec<u8, 64>, reply: Result<(), Refusal>, bits: &[u8])
    ensures { out.new.items ≡ written 64 out.old.items (bits_text reply bits.now) }
{
    match reply {
        Ok(()) => answer_in(out, Ok(Bits(bits))),
        Err(refusal) => refused(out, refusal),
    }
}

#[test]
fn numbers(rt: HostRuntime) {
    let mut out = ArrayVec::new();
    done(&mut out, Ok(()));
    done(&mut out, Err(Refusal::Clash { line: 0 }));
    number(&mut out, Ok(20));
    hop(&mut out, Ok(found().on_air.tuning));
    page(
        &mut out,
        Ok(PagingBlock {
            tn: 0,
            block: 4,
            frame: 26,
        }),
    );
    bits(&mut out, Ok(()), &[0, 1, 1]);
    assert_eq!(rt;
        out.as_slice(),
        b"ok\nrefused 9 0\nok 20\nok 50 3 4\nok 0 4 26\nok 011\n".as_slice()
    );
}

#[test]
fn frames(rt: HostRuntime) {
    let mut out = ArrayVec::new();
    split(&mut out, Frame::new(11));
    split(&mut out, Frame::new(26));
    split(&mut out, Frame::new(Frame::HYPERFRAME));
    assert_eq!(rt;
        out.as_slice(),
        b"ok 0 11 11 1\nok 0 0 26 -\nrefused 3\n".as_slice()
    );
}

// Line 2 on the ARFCN at position 4, a TCH burst of two blocks.
fn found() -> Found {
    let first = Place { block: 2, place: 1 };
    let second = Place { block: 1, place: 5 };
    let burst = Burst {
        kind: Kind::Tch,
        subchannel: 0,
        blocks: Blocks::Two(first, second),
    };
    let on_air = OnAir {
        tuning: Tuning {
            arfcn: 50,
            mai: 3,
            position: 4,
        },
        content: Content::Channel(burst),
        owner: 4714,
    };
    Found { line: 2, on_air }
}

#[test]
fn channels(rt: HostRuntime) {
    let mut out = ArrayVec::new();
    map(&mut out, Ok(found().on_air.content));
    line(&mut out, Ok(found().on_air));
    assert_eq!(rt;
        out.as_slice(),
        b"ok TCH 0 2 1 1 5\nok 50 3 4 TCH 0 4714 2 1 1 5\n".as_slice()
    );
}

#[test]
fn lines(rt: HostRuntime) {
    let mut out = ArrayVec::new();
    map(&mut out, Ok(Content::Idle));
    who(&mut out, Ok(Some(found())));
    who(&mut out, Ok(None));
    assert_eq!(rt;
        out.as_slice(),
        b"ok idle\nok 2 50 3 4 TCH 0 4714 2 1 1 5\nok nobody\n".as_slice()
    );
}

// A reply that is written elsewhere.
#[derive(Drop)]
struct Letter(u8);

impl<const N: usize> Reply<N> for Letter {
    ghost text = { λ l. l.0 ∷ [] };

    fn print(self, out: &mut ArrayVec<u8, N>) {
        put_byte(out, self.0);
    }
}

fn letter_to(out: &mut ArrayVec<u8, 18>, reply: Result<Letter, Refusal>)
    ensures { out.new.items ≡ written 18 out.old.items (answered reply (λ l. l.0 ∷ [])) }
{
    answer(out, reply);
}

// Any type that is printed in any room is answered and printed to an array as it is there.
fn reply_to<T: ReplyIn<ArrayVec<u8, 18>>>(out: &mut ArrayVec<u8, 18>, reply: Result<T, Refusal>)
    ensures { out.new.items ≡ written 18 out.old.items (answered reply T.ReplyIn.text) }
{
    answer(out, reply);
}

fn printed_to<T: ReplyIn<ArrayVec<u8, 18>>>(out: &mut ArrayVec<u8, 18>, reply: T)
    ensures { out.new.items ≡ written 18 out.old.items (T.ReplyIn.text reply) }
{
    reply.print(out);
}

#[test]
fn arrays(rt: HostRuntime) {
    let mut out = ArrayVec::new();
    printed_to(&mut out, 7u32);
    reply_to(&mut out, Ok(20u32));
    letter_to(&mut out, Ok(Letter(b'?')));
    assert_eq!(rt; out.as_slice(), b" 7ok 20\nok?\n".as_slice());
    letter_to(&mut out, Err(Refusal::Maio));
    assert_eq!(rt; out.as_slice(), b" 7ok 20\nok?\nrefuse".as_slice());
}

fn why<const N: usize>(out: &mut ArrayVec<u8, N>, number: u64, reason: Reason)
    ensures { out.new.items ≡ written N out.old.items (error_text number reason) }
{
    error(out, number, reason);
}

// A reason by its number, to a lent slice from a place on: where it ends.
fn why_at(out: &mut [u8], at: usize, number: u64, reason: u32) -> usize
    ensures { Appended out.old at out.new result (error_with number (numbered_reason_text reason)) }
{
    let mut lent = Lent { slice: out, at };
    error(&mut lent, number, reason);
    lent.end()
}

// The name of a channel by its kind and by its number.
fn name_of(kind: Kind) -> &'static [u8]
    ensures { result.now ≡ channel_text kind }
{
    channel_name(kind)
}

fn name_at(out: &mut [u8], at: usize, number: u32) -> usize
    ensures { Appended out.old at out.new result (numbered_channel_text number) }
{
    let mut lent = Lent { slice: out, at };
    put(&mut lent, channel_name(number));
    lent.end()
}

#[test]
fn names(rt: HostRuntime) {
    let mut slice = [b'.'; 8];
    assert_eq!(rt; name_of(Kind::Sdcch), b"SDCCH".as_slice());
    assert_eq!(rt; name_at(&mut slice, 1, 3), 6);
    assert_eq!(rt; slice.as_slice(), b".SDCCH..".as_slice());
    assert_eq!(rt; name_at(&mut slice, 4, 9), 4);
    assert_eq!(rt; name_at(&mut slice, 6, 8), 8);
    assert_eq!(rt; slice.as_slice(), b".SDCCHRA".as_slice());
}

#[test]
fn reasons(rt: HostRuntime) {
    let mut out = ArrayVec::<u8, 64>::new();
    why(&mut out, 12, Reason::TooFewWords);
    assert_eq!(rt; out.as_slice(), b"error 12 too few words\n".as_slice());
    let mut slice = [b'.'; 26];
    assert_eq!(rt; why_at(&mut slice, 2, 12, 3), 25);
    assert_eq!(rt; slice.as_slice(), b"..error 12 too few words\n.".as_slice());
    assert_eq!(rt; why_at(&mut slice, 24, 12, 8), 26);
    assert_eq!(rt; slice.as_slice(), b"..error 12 too few wordser".as_slice());
    assert_eq!(rt; why_at(&mut slice, 0, 7, 9), 9);
    assert_eq!(rt; slice.as_slice(), b"error 7 \n2 too few wordser".as_slice());
}
