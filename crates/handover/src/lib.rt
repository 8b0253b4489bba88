// Late messages survive a handover between accesses: a message sealed on one connection that arrives on the other is opened on the one that sealed it.
#![tactic(auto)]

ghost use Rattle.std.specs.Prelude.{◌≡◌, true, false, IfSome, IfNone};
ghost use Rattle.refusals.specs.Numbers.{number_of as number};
ghost use Rattle.nas_5gs.specs.OpenAnswer.{told_open};
ghost use Rattle.handover.specs.Across.{other, number_of, is_missed, both_of, leaves_across, elsewhere_of, across_of};

use nas_5gs::{Connection, Context, Direction, OpenError, Opened};
use nas_core::{Done, Received};
use refusals::Refusal;

// `connection` is the one that the message was taken on, or arrived on if it is refused; `answer` is what `open` answers there.
#[derive(Clone, Copy)]
pub struct AcrossAnswer {
    pub connection: Connection,
    pub answer: Result<Opened, OpenError<Received>>,
}

fn other(connection: Connection) -> Connection
    ensures { result ≡ other connection }
{
    match connection {
        Connection::ThreeGpp => Connection::Non3Gpp,
        Connection::Non3Gpp => Connection::ThreeGpp,
    }
}

// The refusal of an open that found no COUNT in the record that it tried.
#[tactic(auto, unfolding(crate::specs::Across::is_missed))]
fn not_taken(answer: Result<Opened, OpenError<Received>>) -> Option<Refusal>
    ensures some { IfSome result (λ r. (number r ≡ number_of (told_open answer)) × (is_missed (number_of (told_open answer)) ≡ true)) }
    ensures none { IfNone result (is_missed (number_of (told_open answer)) ≡ false) }
{
    match answer {
        Err(OpenError::Refused(Refusal::NoCount)) => Some(Refusal::NoCount),
        Err(OpenError::Refused(Refusal::WrongCode)) => Some(Refusal::WrongCode),
        _ => None,
    }
}

#[tactic(auto, unfolding(crate::specs::Across::both_of))]
fn both_of(here: Refusal, there: Refusal) -> Refusal
    ensures { number result ≡ both_of (number here) (number there) }
{
    match (here, there) {
        (Refusal::NoCount, Refusal::NoCount) => Refusal::NoCount,
        _ => Refusal::WrongCode,
    }
}

// What an open on a connection leaves, with the connection.
fn on(
    connection: Connection,
    done: Done<Result<Opened, OpenError<Received>>, Context>,
) -> Done<AcrossAnswer, Context>
    ensures { (result.answer.connection ≡ connection) × (result.answer.answer ≡ done.answer) × (result.context ≡ done.context) }
{
    Done {
        answer: AcrossAnswer {
            connection,
            answer: done.answer,
        },
        context: done.context,
    }
}

// The other connection, where this one refuses.
fn elsewhere(
    context: Context,
    direction: Direction,
    connection: Connection,
    refusal: Refusal,
    message: &[u8],
    out: &mut [u8],
    second: &mut [u8],
) -> Done<AcrossAnswer, Context>
    ensures { leaves_across result.answer.connection (told_open result.answer.answer) result.context out.new second.new ≡ elsewhere_of context direction connection (number refusal) message.now out.old second.old }
{
    let k = other(connection);
    let there = context.open(direction, k, message, out, second);
    match not_taken(there.answer) {
        None => on(k, there),
        Some(other) => Done {
            answer: AcrossAnswer {
                connection,
                answer: Err(OpenError::Refused(both_of(refusal, other))),
            },
            context,
        },
    }
}

// A refusal of the first try leaves context and outputs as they were, so the second begins where the first did.
pub fn open_across(
    context: Context,
    direction: Direction,
    connection: Connection,
    message: &[u8],
    out: &mut [u8],
    second: &mut [u8],
) -> Done<AcrossAnswer, Context>
    ensures { leaves_across result.answer.connection (told_open result.answer.answer) result.context out.new second.new ≡ across_of context direction connection message.now out.old second.old }
{
    let here = context.open(direction, connection, message, out, second);
    // Under null integrity no code tells the connections apart.
    if context.core.wraps() {
        return on(connection, here);
    }
    match not_taken(here.answer) {
        None => on(connection, here),
        Some(refusal) => elsewhere(
            context, direction, connection, refusal, message, out, second,
        ),
    }
}

// The same over a context that is changed where it lies.
pub fn open_across_in_place(
    context: &mut Context,
    direction: Direction,
    connection: Connection,
    message: &[u8],
    out: &mut [u8],
    second: &mut [u8],
) -> AcrossAnswer
    ensures { leaves_across result.connection (told_open result.answer) context.new out.new second.new ≡ across_of context.old direction connection message.now out.old second.old }
{
    let done = open_across(*context, direction, connection, message, out, second);
    *context = done.context;
    done.answer
}
