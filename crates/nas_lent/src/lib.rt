// The calls in place of crate nas_host on a copy of a context that comes by value and is handed back: what a program that holds its contexts by value
// calls. Each contract is that of nas_5gs's call.
#![tactic(auto)]

ghost use Rattle.std.specs.Prelude.{◌≡◌, []};
ghost use Rattle.nas_core.specs.ChangeAnswer.{told_change};
ghost use Rattle.nas_core.specs.UseAnswer.{told_use};
ghost use Rattle.nas_5gs.specs.OpenAnswer.{told_open};
ghost use Rattle.nas_5gs.specs.Leaves.{leaves, leaves_two};
ghost use Rattle.nas_5gs.specs.Changes.{window_of};
ghost use Rattle.nas_5gs.specs.Seal.{seal_of};
ghost use Rattle.nas_5gs.specs.Open.{open_of};

use nas_5gs::{Connection, Context, Direction, OpenError, Opened};
use nas_core::{Done, Received, Spent};
use refusals::Refusal;

pub fn set_window(mut context: Context, size: u8) -> Done<Result<(), Refusal>, Context>
    ensures { leaves (told_change result.answer) result.context [] ≡ window_of context size }
{
    let answer = nas_host::set_window(&mut context, size);
    Done { answer, context }
}

pub fn seal(
    mut context: Context,
    header_type: u8,
    direction: Direction,
    connection: Connection,
    inner: &[u8],
    out: &mut [u8],
) -> Done<Result<Spent, Refusal>, Context>
    ensures { leaves (told_use result.answer) result.context out.new ≡ seal_of context header_type direction connection inner.now out.old }
{
    let answer = nas_host::seal(&mut context, header_type, direction, connection, inner, out);
    Done { answer, context }
}

pub fn open(
    mut context: Context,
    direction: Direction,
    connection: Connection,
    message: &[u8],
    out: &mut [u8],
    second: &mut [u8],
) -> Done<Result<Opened, OpenError<Received>>, Context>
    ensures { leaves_two (told_open result.answer) result.context out.new second.new ≡ open_of context direction connection message.now out.old second.old }
{
    let answer = nas_host::open(&mut context, direction, connection, message, out, second);
    Done { answer, context }
}
