// The names of the channels.
ghost use Rattle.std.specs.Prelude.{ℕ, List, ◌≡◌};
ghost use Rattle.wording.specs.Replies.{channel_text, numbered_channel_text};

use maps::Kind;

// What a channel is named by: its kind, or its number.
pub trait Named {
    ghost named: { Self → List ℕ };

    fn name(self) -> &'static [u8]
        ensures { result.now ≡ named self };
}

impl Named for Kind {
    ghost named = { channel_text };

    fn name(self) -> &'static [u8] {
        match self {
            Kind::Tch => b"TCH",
            Kind::Sacch => b"SACCH",
            Kind::Sdcch => b"SDCCH",
            Kind::Fcch => b"FCCH",
            Kind::Sch => b"SCH",
            Kind::Bcch => b"BCCH",
            Kind::Ccch => b"CCCH",
            Kind::Rach => b"RACH",
        }
    }
}

// From 1 on, in the order above; another number has no name.
impl Named for u32 {
    ghost named = { numbered_channel_text };

    fn name(self) -> &'static [u8] {
        match self {
            1 => Kind::Tch.name(),
            2 => Kind::Sacch.name(),
            3 => Kind::Sdcch.name(),
            4 => Kind::Fcch.name(),
            5 => Kind::Sch.name(),
            6 => Kind::Bcch.name(),
            7 => Kind::Ccch.name(),
            8 => Kind::Rach.name(),
            _ => b"",
        }
    }
}
