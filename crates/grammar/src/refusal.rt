// Why a call is refused.
ghost use Rattle.std.specs.Prelude.{◌≡◌, Some};
ghost use Rattle.grammar.specs.Number.{number_of, refusal_text};

use std::error::Error;
use std::fmt;

// The refusals, each with its number.
#[derive(Clone, Copy, Debug, PartialEq, Eq)]
pub enum Refusal {
    // 1: R, T, P or N is outside its limits.
    Sizes,
    // 2: the starts are not P+1 long, do not begin with 0, do not end with N, or fall somewhere.
    Starts,
    // 3: an owner is R or more.
    Owner,
    // 4: a rule owns no production.
    Unowned,
    // 5: a token among the symbols is T-1 or more, or a rule among them is R or more.
    Symbol,
    // 6: a production of rule 0 is not exactly one rule symbol, or a production holds rule 0.
    Start,
    // 7: a lent table is not of its exact length.
    Length,
    // 8: the FOLLOW mode is not 2.
    Mode,
    // 9: a rule's number is R or more.
    Rule,
    // 10: a token's number is T or more.
    Token,
    // 11: a production's number is P or more.
    Prod,
    // 12: the rule has no sentence.
    NoSentence,
    // 13: it has a sentence, but none that costs 65535 or less.
    Dear,
    // 14: its choice is circular.
    Circular,
    // 15: its sentence is longer than 65535 tokens or than the room lent.
    Long,
    // 16: it has more than 65535 cheapest sentences, or fewer than are asked for.
    Many,
    // 17: a job's kind is none, or its next production is P or more.
    Job,
    // 20: the file is empty, is not whole blocks, or has too many.
    File,
    // 21: a block's check differs.
    Check,
    // 22: a block's number is not its place.
    Place,
    // 23: the file has more or fewer blocks than are due, or a spare payload byte is not zero.
    Blocks,
    // 24: the buffer lent to the file writer is shorter than the file.
    Room,
    // 25: in a file of version 2 a token other than eof costs nothing.
    Free,
    // 26: the version that the file writer is told is neither 1 nor 2.
    Version,
}

impl From<Refusal> for u16 {
    ghost from_gives = { λ refusal n. n ≡ number_of refusal };

    fn from(refusal: Refusal) -> u16 {
        match refusal {
            Refusal::Sizes => 1,
            Refusal::Starts => 2,
            Refusal::Owner => 3,
            Refusal::Unowned => 4,
            Refusal::Symbol => 5,
            Refusal::Start => 6,
            Refusal::Length => 7,
            Refusal::Mode => 8,
            Refusal::Rule => 9,
            Refusal::Token => 10,
            Refusal::Prod => 11,
            Refusal::NoSentence => 12,
            Refusal::Dear => 13,
            Refusal::Circular => 14,
            Refusal::Long => 15,
            Refusal::Many => 16,
            Refusal::Job => 17,
            Refusal::File => 20,
            Refusal::Check => 21,
            Refusal::Place => 22,
            Refusal::Blocks => 23,
            Refusal::Room => 24,
            Refusal::Free => 25,
            Refusal::Version => 26,
        }
    }
}

impl fmt::Display for Refusal {
    ghost output = { λ refusal. Some (refusal_text refusal) };

    fn fmt<W: fmt::Write>(&self, f: &mut fmt::Formatter<W>) -> fmt::Result {
        write!(f, "refused {}", u16::from(*self))
    }
}

impl Error for Refusal {}
