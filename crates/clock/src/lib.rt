// The frame clock: document 01, "Frame clock (4.3.3, 3.3.2.2)".
#![tactic(auto)]

ghost use Rattle.std.specs.Prelude.{◌≡◌};
ghost use Rattle.answers.specs.Refusals.{outcome_of, option_of};
ghost use Rattle.clock.specs.Clock.{split_of, prime_of, join_of};

use answers::Refusal;

// A frame by its counters T1, T2 and T3.
#[derive(Clone, Copy, Debug, PartialEq, Eq)]
pub struct Frame {
    pub t1: u32,
    pub t2: u32,
    pub t3: u32,
}

impl Frame {
    // FN is 0 to 2,715,647 and returns to 0.
    pub const HYPERFRAME: u32 = 2715648;

    // The frame of number FN, or refusal 3.
    #[tactic(auto, unfolding(answers::specs::Outcome::decide, answers::specs::Outcome::any_of))]
    pub fn new(number: u32) -> Result<Frame, Refusal>
        ensures { outcome_of result ≡ split_of number }
    {
        if number >= Frame::HYPERFRAME {
            return Err(Refusal::OutOfRange);
        }
        Ok(Frame {
            t1: number / 1326,
            t2: number % 26,
            t3: number % 51,
        })
    }

    // T3', which a frame has where T3 is 1, 11, 21, 31 or 41.
    #[tactic(auto, unfolding(crate::specs::Clock::prime_of, answers::specs::Outcome::any_of))]
    pub fn prime(self) -> Option<u32>
        ensures { option_of result ≡ prime_of self.t3 }
    {
        match self.t3 {
            1 | 11 | 21 | 31 | 41 => Some((self.t3 - 1) / 10),
            _ => None,
        }
    }

    // The number of the frame with these counters, or refusal 14. One by one: a struct of counters that need not be a
    // frame's would be no plainer.
    #[tactic(auto, unfolding(answers::specs::Outcome::decide, answers::specs::Outcome::any_of))]
    pub fn join(t1: u32, t2: u32, t3: u32) -> Result<u32, Refusal>
        ensures { outcome_of result ≡ join_of t1 t2 t3 }
    {
        if t1 > 2047 || t2 > 25 || t3 > 50 {
            return Err(Refusal::Malformed);
        }
        Ok(1326 * t1 + 51 * ((t3 + 26 - t2) % 26) + t3)
    }
}
