// The parts of a timetable: its head, the titles of its columns, and in each row the frame and what each line has there.
#![tactic(auto, using(replies::proofs::Texts::in_turn))]

#[cfg(test)]
mod tests;

ghost use Rattle.std.specs.Prelude.{ℕ, List, ◌++◌, ◌≡◌};
ghost use Rattle.wording.specs.Print.{decimal_of, left};
ghost use Rattle.wording.specs.Replies.{channel_text};
ghost use Rattle.wording.specs.Table.{direction_text, head_text, title_text, frame_text, owner_text, holder_text, block_text, columns_text, shown_text, cell_text};
ghost use Rattle.text.specs.Room.{Put};
ghost use Rattle.timetable.specs.Numbered.{numbered_holder_text, numbered_columns_text, numbered_shown_text, numbered_cell_text};

use c_answers::TdmaLine;
use clock::Frame;
use maps::{Blocks, Burst, Content, Place};
use replies::channel_name;
use slots::OnAir;
use text::print::{put, put_left, put_number, put_right, put_spaces};
use text::room::Room;

// What is shown, its numbers in the order of the line; the open lines' numbers follow.
pub fn head<B: Room>(out: &mut B, tn: u32, direction: u32, count: u32, frame: u32)
    ensures { Put (B.buffer out.old) (B.buffer out.new) (head_text tn direction count frame) }
{
    put(out, b"timeslot ");
    put_number(out, u64::from(tn));
    put(out, direction_name(direction));
    put_number(out, u64::from(count));
    put(out, b" frames from ");
    put_number(out, u64::from(frame));
    put(out, b", open lines:");
}

// The direction is a number, as document 01 has it: the calls refuse others than 0 and 1.
fn direction_name(direction: u32) -> &'static [u8]
    ensures { result.now ≡ direction_text direction }
{
    if direction == 0 {
        b" downlink, "
    } else {
        b" uplink, "
    }
}

// The title of a line's column.
pub fn title<B: Room>(out: &mut B, line: u32)
    ensures { Put (B.buffer out.old) (B.buffer out.new) (title_text line) }
{
    put(out, b" line ");
    put_left(out, u64::from(line), 24);
    put(out, b" |");
}

// A frame by its number, also as T1, T2, T3.
pub fn frame<B: Room>(out: &mut B, number: u32, frame: Frame)
    ensures { Put (B.buffer out.old) (B.buffer out.new) (frame_text number frame) }
{
    put_right(out, u64::from(number), 7);
    put_right(out, u64::from(frame.t1), 5);
    put_right(out, u64::from(frame.t2), 3);
    put_right(out, u64::from(frame.t3), 3);
    put(out, b" |");
}

// The name of a channel in a column of five.
fn kind<B: Room>(out: &mut B, name: &[u8])
    ensures { Put (B.buffer out.old) (B.buffer out.new) (left 5 name.now) }
{
    put(out, name);
    put_spaces(out, 5usize.saturating_sub(name.len()));
}

// The owner of a subchannel; a free one has none.
fn owner<B: Room>(out: &mut B, owner: u32)
    ensures { Put (B.buffer out.old) (B.buffer out.new) (owner_text owner) }
{
    if owner == 0 {
        put(out, b"  free");
    } else {
        put(out, b" ");
        put_right(out, u64::from(owner), 5);
    }
}

// A subchannel and its owner.
fn held<B: Room>(out: &mut B, subchannel: u32, held_by: u32)
    ensures { Put (B.buffer out.old) (B.buffer out.new) (decimal_of subchannel ++ owner_text held_by) }
{
    put_number(out, u64::from(subchannel));
    owner(out, held_by);
}

// The subchannel and its owner; a common part has neither.
fn holder<B: Room>(out: &mut B, burst: Burst, held_by: u32)
    ensures { Put (B.buffer out.old) (B.buffer out.new) (holder_text burst held_by) }
{
    if burst.kind.is_common() {
        put(out, b"-     -");
    } else {
        held(out, burst.subchannel, held_by);
    }
}

// A block and a place of it.
fn block<B: Room>(out: &mut B, place: Place)
    ensures { Put (B.buffer out.old) (B.buffer out.new) (block_text place) }
{
    put_right(out, u64::from(place.block), 3);
    put(out, b".");
    put_number(out, u64::from(place.place));
}

// One block or two, up to the cell's edge.
fn columns<B: Room>(out: &mut B, blocks: Blocks)
    ensures { Put (B.buffer out.old) (B.buffer out.new) (columns_text blocks) }
{
    match blocks {
        Blocks::One(only) => {
            block(out, only);
            put(out, b"      |");
        }
        Blocks::Two(first, second) => {
            block(out, first);
            block(out, second);
            put(out, b" |");
        }
    }
}

fn shown<B: Room>(out: &mut B, content: Content, owner: u32)
    ensures { Put (B.buffer out.old) (B.buffer out.new) (shown_text content owner) }
{
    match content {
        Content::Idle => put(out, b"idle                    |"),
        Content::Channel(burst) => {
            kind(out, channel_name(burst.kind));
            put(out, b" ");
            holder(out, burst, owner);
            columns(out, burst.blocks);
        }
    }
}

// What a line has in a frame, as `line` answers it or as C gets that.
pub trait Slot {
    ghost text: { Self → List ℕ };

    fn show<B: Room>(self, out: &mut B)
        ensures { Put (B.buffer out.old) (B.buffer out.new) (text self) };
}

impl Slot for OnAir {
    ghost text = { cell_text };

    fn show<B: Room>(self, out: &mut B) {
        put_right(out, u64::from(self.tuning.arfcn), 6);
        put(out, b" ");
        shown(out, self.content, self.owner);
    }
}

impl Slot for TdmaLine {
    ghost text = { numbered_cell_text };

    fn show<B: Room>(self, out: &mut B) {
        put_right(out, u64::from(self.arfcn), 6);
        put(out, b" ");
        numbered(out, self);
    }
}

// What a line has in a frame.
pub fn cell<B: Room, S: Slot>(out: &mut B, slot: S)
    ensures { Put (B.buffer out.old) (B.buffer out.new) (S.text slot) }
{
    slot.show(out);
}

// A number above 3 is a common part's, or no channel's.
fn numbered_holder<B: Room>(out: &mut B, line: TdmaLine)
    ensures { Put (B.buffer out.old) (B.buffer out.new) (numbered_holder_text line) }
{
    if line.channel > 3 {
        put(out, b"-     -");
    } else {
        held(out, line.subchannel, line.owner);
    }
}

fn numbered_columns<B: Room>(out: &mut B, line: TdmaLine)
    ensures { Put (B.buffer out.old) (B.buffer out.new) (numbered_columns_text line) }
{
    let first = Place {
        block: line.block,
        place: line.place,
    };
    if line.blocks == 2 {
        let second = Place {
            block: line.block2,
            place: line.place2,
        };
        columns(out, Blocks::Two(first, second));
    } else {
        columns(out, Blocks::One(first));
    }
}

fn numbered<B: Room>(out: &mut B, line: TdmaLine)
    ensures { Put (B.buffer out.old) (B.buffer out.new) (numbered_shown_text line) }
{
    if line.channel == 0 {
        put(out, b"idle                    |");
    } else {
        kind(out, channel_name(line.channel));
        put(out, b" ");
        numbered_holder(out, line);
        numbered_columns(out, line);
    }
}
