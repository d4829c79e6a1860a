// The words that name a command or a burst.
#![tactic(auto)]

ghost use Rattle.std.specs.Prelude.{◌≡◌, map};
ghost use Rattle.wording.specs.Names.{named, command_of, burst_of};

use wording::{BurstName, Command};

static COMMANDS: [(&[u8], Command); 15] = [
    (b"split", Command::Split),
    (b"join", Command::Join),
    (b"hop", Command::Hop),
    (b"map", Command::Map),
    (b"start", Command::Start),
    (b"open", Command::Open),
    (b"close", Command::Close),
    (b"seize", Command::Seize),
    (b"release", Command::Release),
    (b"line", Command::Line),
    (b"who", Command::Who),
    (b"page", Command::Page),
    (b"build", Command::Build),
    (b"take", Command::Take),
    (b"table", Command::Table),
];

// The first three can be taken apart.
static BURSTS: [(&[u8], BurstName); 5] = [
    (b"normal", BurstName::Normal),
    (b"sync", BurstName::Synchronization),
    (b"access", BurstName::Access),
    (b"frequency", BurstName::FrequencyCorrection),
    (b"dummy", BurstName::Dummy),
];

// What a word names, of names with what each stands for.
fn named<T: Copy>(word: &[u8], names: &[(&[u8], T)]) -> Option<T>
    ensures { result ≡ named word.now (map (λ name. (name.0.now, name.1)) names.now) }
{
    for &(name, what) in names {
        if word == name {
            return Some(what);
        }
    }
    None
}

// `command` and `burst` have a table each, and one search.
pub fn command(word: &[u8]) -> Option<Command>
    ensures { result ≡ command_of word.now }
{
    named(word, &COMMANDS)
}

pub fn burst(word: &[u8]) -> Option<BurstName>
    ensures { result ≡ burst_of word.now }
{
    named(word, &BURSTS)
}
