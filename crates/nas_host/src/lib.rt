// A context changed where it lies, for a host that keeps its contexts in a table: seal, open and the window size, as thin covers of the calls that hand the
// context back. Each contract is that call's own, of the lent context before and after. Every answer stores what the call handed back: after a refusal but 8
// that is the context as it was (crate mixture), after 8 the one that has the COUNT used.
#![tactic(auto)]

ghost use Rattle.std.specs.Prelude.{◌≡◌, []};
ghost use Rattle.nas_core.specs.ChangeAnswer.{told_change};
ghost use Rattle.nas_core.specs.UseAnswer.{told_use};
ghost use Rattle.nas_5gs.specs.OpenAnswer.{told_open};
ghost use Rattle.nas_5gs.specs.Leaves.{leaves, leaves_two};
ghost use Rattle.nas_5gs.specs.Changes.{window_of};
ghost use Rattle.nas_5gs.specs.Seal.{seal_of};
ghost use Rattle.nas_5gs.specs.Open.{open_of};

use nas_5gs::{Connection, Context, Direction, OpenError, Opened};
use nas_core::{Received, Spent};
use refusals::Refusal;

pub fn set_window(context: &mut Context, size: u8) -> Result<(), Refusal>
    ensures { leaves (told_change result) context.new [] ≡ window_of context.old size }
{
    let done = context.set_window(size);
    *context = done.context;
    done.answer
}

pub fn seal(
    context: &mut Context,
    header_type: u8,
    direction: Direction,
    connection: Connection,
    inner: &[u8],
    out: &mut [u8],
) -> Result<Spent, Refusal>
    ensures { leaves (told_use result) context.new out.new ≡ seal_of context.old header_type direction connection inner.now out.old }
{
    let done = context.seal(header_type, direction, connection, inner, out);
    *context = done.context;
    done.answer
}

pub fn open(
    context: &mut Context,
    direction: Direction,
    connection: Connection,
    message: &[u8],
    out: &mut [u8],
    second: &mut [u8],
) -> Result<Opened, OpenError<Received>>
    ensures { leaves_two (told_open result) context.new out.new second.new ≡ open_of context.old direction connection message.now out.old second.old }
{
    let done = context.open(direction, connection, message, out, second);
    *context = done.context;
    done.answer
}
