// A call performed on an EPS context: which function of nas_eps is called with which numbers, and its answer as one value and as a line.
#![tactic(auto)]

ghost use Rattle.std.specs.Prelude.{◌≡◌};
ghost use Rattle.nas_core.specs.ChangeAnswer.{told_change};
ghost use Rattle.nas_core.specs.UseAnswer.{told_use};
ghost use Rattle.nas_eps.specs.OpenAnswer.{told_open};
ghost use Rattle.nas_eps.specs.Leaves.{leaves};
ghost use Rattle.hex_eps.specs.Answers.{change_answer, use_answer, open_answer};
ghost use Rattle.hex_eps.specs.Perform.{perform_of};

mod calls;
pub mod print;

use hex_eps_parse::Line;
use nas_core::{Done, Spent};
use nas_eps::{Context, Opened};
use refusals::Refusal;

// What is printed of a call, but for the octets that it wrote.
// kept: refusals are the numbers that are printed, as in hex_perform's Answer.
#[derive(Clone, Copy)]
pub enum Answer {
    Bad,
    Done,
    Shown,
    Refused(u8),
    Used {
        count: u32,
        wrote: usize,
    },
    Opened {
        count: u32,
        distance: u32,
        wrote: usize,
        header: u8,
    },
    Request {
        count: u32,
        distance: u32,
        identifier: u8,
    },
}

impl From<Result<(), Refusal>> for Answer {
    ghost from_gives = { λ given answer. answer ≡ change_answer (told_change given) };

    fn from(given: Result<(), Refusal>) -> Answer {
        match given {
            Ok(()) => Answer::Done,
            Err(refusal) => Answer::Refused(refusal.number()),
        }
    }
}

impl From<Result<Spent, Refusal>> for Answer {
    ghost from_gives = { λ given answer. answer ≡ use_answer (told_use given) };

    fn from(given: Result<Spent, Refusal>) -> Answer {
        match given {
            Ok(Spent { count, wrote }) => Answer::Used { count, wrote },
            Err(refusal) => Answer::Refused(refusal.number()),
        }
    }
}

impl From<Result<Opened, Refusal>> for Answer {
    ghost from_gives = { λ given answer. answer ≡ open_answer (told_open given) };

    fn from(given: Result<Opened, Refusal>) -> Answer {
        match given {
            Ok(Opened::Message(message)) => Answer::Opened {
                count: message.count,
                distance: message.distance,
                wrote: message.wrote,
                header: message.header_type,
            },
            Ok(
                Opened::ServiceRequest {
                    count,
                    distance,
                    identifier,
                },
            ) => Answer::Request {
                count,
                distance,
                identifier,
            },
            Err(refusal) => Answer::Refused(refusal.number()),
        }
    }
}

// The call of a line on a context. `octets` are the line's, `out` is the output that is lent.
pub fn perform(line: Line, context: Context, octets: &[u8], out: &mut [u8]) -> Done<Answer, Context>
    ensures { leaves result.answer result.context out.new ≡ perform_of line context octets.now out.old }
{
    match line.octets {
        None => Done {
            answer: Answer::Refused(Refusal::TooLong.number()),
            context,
        },
        Some(_) => calls::call(line, context, octets, out),
    }
}
