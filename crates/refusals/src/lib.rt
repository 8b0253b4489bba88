// The refusals of the calls and, as lists in their order, which is given: the error that each call answers, definitions and laws.
#![tactic(auto)]

ghost use Rattle.std.specs.Prelude.{◌≡◌};
ghost use Rattle.refusals.specs.Numbers.{number_of};

use std::error::Error;
use std::fmt;

// The numbers are those of document 01, "Refusal numbers". 8 is not among them, because it hands over a plaintext: it carries one of these.
#[derive(Clone, Copy, Debug, PartialEq, Eq)]
pub enum Refusal {
    // too short, or of a length that its kind does not have
    WrongLength = 1,
    WrongFirstOctet = 2,
    WrongHeaderType = 3,
    TooLong = 4,
    // an output is shorter than what would be written
    NoRoom = 5,
    // none to send with, or none left that the message could have
    NoCount = 6,
    // the code is that of no COUNT that the message could have
    WrongCode = 7,
    // not a known message
    NotKnown = 9,
    // the header type and the message
    NotTogether = 10,
    // not a message of this direction
    WrongWay = 11,
    // neither of the two EPS messages that may be sent under a 5GS context
    NotEps = 12,
    // an algorithm code
    NotBuilt = 13,
    WindowTooLarge = 14,
    // a container names algorithms that are not the context's
    OtherAlgorithms = 15,
    // an NCC, an identifier or a next COUNT
    OutOfRange = 16,
    // an initial message that has a container, or one whose container or own parts are not as they have to be
    Container = 18,
}

impl Refusal {
    pub fn number(self) -> u8
        ensures { result ≡ number_of self }
    {
        self as u8
    }
}

impl fmt::Display for Refusal {
    fn fmt<W: fmt::Write>(&self, f: &mut fmt::Formatter<W>) -> fmt::Result {
        f.write_str(match self {
            Refusal::WrongLength => "too short, or of a length that it cannot have",
            Refusal::WrongFirstOctet => "the first octet is not that of a protected message",
            Refusal::WrongHeaderType => "the security header type is none that protects a message",
            Refusal::TooLong => "too long",
            Refusal::NoRoom => "an output is shorter than what would be written",
            Refusal::NoCount => "every COUNT is used, or none is left that the message could have",
            Refusal::WrongCode => "the code is wrong for every COUNT that the message could have",
            Refusal::NotKnown => "not a known message",
            Refusal::NotTogether => "the security header type and the message do not go together",
            Refusal::WrongWay => "not a message of this direction",
            Refusal::NotEps => "not an EPS ATTACH REQUEST or TRACKING AREA UPDATE REQUEST",
            Refusal::NotBuilt => "an algorithm code is 4 or above",
            Refusal::WindowTooLarge => "the window size is above 64",
            Refusal::OtherAlgorithms => "the container's algorithms are not those of the context",
            Refusal::OutOfRange => "an NCC, an identifier or a next COUNT is out of range",
            Refusal::Container =>
                "the initial message has a container, cannot be walked, or its container does not hold a message of its type",
        })
    }
}

impl Error for Refusal {}
