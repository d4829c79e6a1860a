// The wording of the program `schedule`: a line's words and the numbers among them, and what each answer reads like. Definitions in specs/, theorems in proofs/; no functions.
#![tactic(auto)]

// Why a line is no command.
#[derive(Clone, Copy, PartialEq, Eq)]
pub enum Reason {
    UnknownCommand,
    UnknownBurst,
    TooFewWords,
    TooManyWords,
    NotANumber,
    NumberTooLarge,
    CountTooLarge,
    LineTooLong,
}

// What a line's first word names.
#[derive(Clone, Copy, PartialEq, Eq)]
pub enum Command {
    Split,
    Join,
    Hop,
    Map,
    Start,
    Open,
    Close,
    Seize,
    Release,
    Line,
    Who,
    Page,
    Build,
    Take,
    Table,
}

// What the second word of `build` and `take` names.
#[derive(Clone, Copy, PartialEq, Eq)]
pub enum BurstName {
    Normal,
    Synchronization,
    Access,
    FrequencyCorrection,
    Dummy,
}
