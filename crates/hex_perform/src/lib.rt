// A call performed on a context: which function of nas_5gs is called with which numbers, and its answer as one value.
#![tactic(auto)]

ghost use Rattle.std.specs.Prelude.{◌≡◌, length, replicate};
ghost use Rattle.nas_core.specs.ChangeAnswer.{told_change};
ghost use Rattle.nas_core.specs.UseAnswer.{told_use};
ghost use Rattle.nas_5gs.specs.OctetAnswer.{told_octet};
ghost use Rattle.nas_5gs.specs.OpenAnswer.{told_open};
ghost use Rattle.nas_5gs.specs.EpsOpenAnswer.{told_eps_open};
ghost use Rattle.nas_5gs.specs.VerifyAnswer.{told_verify};
ghost use Rattle.nas_5gs.specs.Leaves.{leaves_two};
ghost use Rattle.nas_5gs.specs.Places.{bearer_no};
ghost use Rattle.hex_perform.specs.Answers.{change_answer, use_answer, octet_answer, open_answer, across_answer, eps_answer, verify_answer};
ghost use Rattle.hex_perform.specs.Perform.{direction_of, perform_of};

mod calls;

use handover::AcrossAnswer;
use hex_parse::Line;
use nas_5gs::{Context, EpsReceived, MadeOctet, OpenError, Opened, Reached};
use nas_core::{Direction, Done, Received, Spent};
use refusals::Refusal;

// What is printed of a call, but for the octets that it wrote. `Content` is refusal 8 with the number that it carries.
// kept: refusals are the numbers that are printed, and `Bad`, `Done`, `Shown` are lines of their own: hex_print's `answer_text` and journal_replay speak of these.
#[derive(Clone, Copy)]
pub enum Answer {
    Bad,
    Done,
    Shown,
    Refused(u8),
    Used {
        count: u32,
        wrote: usize,
    },
    Made {
        count: u32,
        octet: u8,
    },
    Opened {
        count: u32,
        distance: u32,
        wrote: usize,
        header: u8,
        second: usize,
    },
    Content {
        count: u32,
        distance: u32,
        wrote: usize,
        header: u8,
        number: u8,
    },
    EpsContent {
        count: u32,
        distance: u32,
        wrote: usize,
        number: u8,
    },
    Received {
        count: u32,
        distance: u32,
        wrote: usize,
    },
    // as `Opened` and `Content`, on the connection that the message was taken on
    OpenedOn {
        connection: u8,
        count: u32,
        distance: u32,
        wrote: usize,
        header: u8,
        second: usize,
    },
    ContentOn {
        connection: u8,
        count: u32,
        distance: u32,
        wrote: usize,
        header: u8,
        number: u8,
    },
}

impl From<Result<(), Refusal>> for Answer {
    ghost from_gives = { λ given answer. answer ≡ change_answer (told_change given) };

    fn from(given: Result<(), Refusal>) -> Answer {
        match given {
            Ok(()) => Answer::Done,
            Err(refusal) => Answer::Refused(refusal.number()),
        }
    }
}

impl From<Result<Spent, Refusal>> for Answer {
    ghost from_gives = { λ given answer. answer ≡ use_answer (told_use given) };

    fn from(given: Result<Spent, Refusal>) -> Answer {
        match given {
            Ok(Spent { count, wrote }) => Answer::Used { count, wrote },
            Err(refusal) => Answer::Refused(refusal.number()),
        }
    }
}

impl From<Result<MadeOctet, Refusal>> for Answer {
    ghost from_gives = { λ given answer. answer ≡ octet_answer (told_octet given) };

    fn from(given: Result<MadeOctet, Refusal>) -> Answer {
        match given {
            Ok(MadeOctet { count, octet }) => Answer::Made { count, octet },
            Err(refusal) => Answer::Refused(refusal.number()),
        }
    }
}

impl From<Result<Opened, OpenError<Received>>> for Answer {
    ghost from_gives = { λ given answer. answer ≡ open_answer (told_open given) };

    fn from(given: Result<Opened, OpenError<Received>>) -> Answer {
        match given {
            Ok(Opened { message, second }) => Answer::Opened {
                count: message.count,
                distance: message.distance,
                wrote: message.wrote,
                header: message.header_type,
                second,
            },
            Err(OpenError::Content(message, refusal)) => Answer::Content {
                count: message.count,
                distance: message.distance,
                wrote: message.wrote,
                header: message.header_type,
                number: refusal.number(),
            },
            Err(OpenError::Refused(refusal)) => Answer::Refused(refusal.number()),
        }
    }
}

impl From<AcrossAnswer> for Answer {
    ghost from_gives = { λ given answer. answer ≡ across_answer (bearer_no given.connection) (told_open given.answer) };

    fn from(given: AcrossAnswer) -> Answer {
        let connection = given.connection.bearer();
        match given.answer {
            Ok(Opened { message, second }) => Answer::OpenedOn {
                connection,
                count: message.count,
                distance: message.distance,
                wrote: message.wrote,
                header: message.header_type,
                second,
            },
            Err(OpenError::Content(message, refusal)) => Answer::ContentOn {
                connection,
                count: message.count,
                distance: message.distance,
                wrote: message.wrote,
                header: message.header_type,
                number: refusal.number(),
            },
            Err(OpenError::Refused(refusal)) => Answer::Refused(refusal.number()),
        }
    }
}

impl From<Result<EpsReceived, OpenError<EpsReceived>>> for Answer {
    ghost from_gives = { λ given answer. answer ≡ eps_answer (told_eps_open given) };

    fn from(given: Result<EpsReceived, OpenError<EpsReceived>>) -> Answer {
        match given {
            Ok(message) => Answer::Received {
                count: message.count,
                distance: message.distance,
                wrote: message.wrote,
            },
            Err(OpenError::Content(message, refusal)) => Answer::EpsContent {
                count: message.count,
                distance: message.distance,
                wrote: message.wrote,
                number: refusal.number(),
            },
            Err(OpenError::Refused(refusal)) => Answer::Refused(refusal.number()),
        }
    }
}

impl From<Result<Reached, Refusal>> for Answer {
    ghost from_gives = { λ given answer. answer ≡ verify_answer (told_verify given) };

    fn from(given: Result<Reached, Refusal>) -> Answer {
        match given {
            Ok(Reached { count, distance }) => Answer::Received {
                count,
                distance,
                wrote: 0,
            },
            Err(refusal) => Answer::Refused(refusal.number()),
        }
    }
}

// The direction that a line names.
#[tactic(auto, unfolding(crate::specs::Perform::direction_of))]
pub fn direction_of(number: u8) -> Direction
    ensures { result ≡ direction_of number }
{
    match number {
        0 => Direction::Uplink,
        _ => Direction::Downlink,
    }
}

// What an octet of the lent output is before a call.
pub const FILL: u8 = 0xa5;

pub fn fill(out: &mut [u8])
    ensures { out.new ≡ replicate (length out.old) 0xa5 }
{
    out.fill(FILL);
}

// The call of a line on a context. `octets` are the line's, `out` and `second` are the outputs that are lent.
pub fn perform(
    line: Line,
    context: Context,
    octets: &[u8],
    out: &mut [u8],
    second: &mut [u8],
) -> Done<Answer, Context>
    ensures { leaves_two result.answer result.context out.new second.new ≡ perform_of line context octets.now out.old second.old }
{
    match line.octets {
        None => Done {
            answer: Answer::Refused(Refusal::TooLong.number()),
            context,
        },
        Some(_) => calls::call(line, context, octets, out, second),
    }
}
