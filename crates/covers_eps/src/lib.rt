// Every public call of the EPS context again, with a contract in the words of its promises, proved from the call's own contract alone: a contract of nas_eps that
// says less breaks this crate.
#![tactic(auto)]

ghost use Rattle.std.specs.Prelude.{◌≡◌, []};
ghost use Rattle.nas_core.specs.ChangeAnswer.{told_change};
ghost use Rattle.nas_core.specs.UseAnswer.{told_use};
ghost use Rattle.nas_eps.specs.OpenAnswer.{told_open};
ghost use Rattle.nas_eps.specs.Leaves.{leaves, change_values, use_values, open_values};
ghost use Rattle.promises_eps.specs.Calls.{set_window, reselect, seal_message, seal_request, open_message, create, restore, next_count, window, integrity, ciphering, outcome, gives, makes, reads};

use nas_core::{Done, Spent};
use nas_eps::{Context, Direction, Opened};
use refusals::Refusal;

// kept: each function is a call again under another contract, as in covers.
pub fn create(
    integrity: u8,
    ciphering: u8,
    integrity_key: [u8; 16],
    ciphering_key: [u8; 16],
) -> Done<Result<(), Refusal>, Context>
    ensures { outcome change_values (leaves (told_change result.answer) result.context []) ≡ makes (create integrity ciphering integrity_key ciphering_key) }
{
    Context::new(integrity, ciphering, integrity_key, ciphering_key)
}

pub fn restore(
    integrity: u8,
    ciphering: u8,
    integrity_key: [u8; 16],
    ciphering_key: [u8; 16],
    up: u32,
    down: u32,
) -> Done<Result<(), Refusal>, Context>
    ensures { outcome change_values (leaves (told_change result.answer) result.context []) ≡ makes (restore integrity ciphering integrity_key ciphering_key up down) }
{
    Context::restore(integrity, ciphering, integrity_key, ciphering_key, up, down)
}

pub fn reselect(
    context: Context,
    integrity: u8,
    ciphering: u8,
    integrity_key: [u8; 16],
    ciphering_key: [u8; 16],
) -> Done<Result<(), Refusal>, Context>
    ensures { outcome change_values (leaves (told_change result.answer) result.context []) ≡ gives (reselect integrity ciphering integrity_key ciphering_key) context }
{
    context.reselect(integrity, ciphering, integrity_key, ciphering_key)
}

pub fn set_window(context: Context, size: u8) -> Done<Result<(), Refusal>, Context>
    ensures { outcome change_values (leaves (told_change result.answer) result.context []) ≡ gives (set_window size) context }
{
    context.set_window(size)
}

pub fn seal_message(
    context: Context,
    header_type: u8,
    direction: Direction,
    inner: &[u8],
    out: &mut [u8],
) -> Done<Result<Spent, Refusal>, Context>
    ensures { outcome use_values (leaves (told_use result.answer) result.context out.new) ≡ gives (seal_message header_type direction inner.now out.old) context }
{
    context.seal(header_type, direction, inner, out)
}

pub fn seal_request(
    context: Context,
    identifier: u8,
    out: &mut [u8],
) -> Done<Result<Spent, Refusal>, Context>
    ensures { outcome use_values (leaves (told_use result.answer) result.context out.new) ≡ gives (seal_request identifier out.old) context }
{
    context.service_request(identifier, out)
}

pub fn open_message(
    context: Context,
    direction: Direction,
    message: &[u8],
    out: &mut [u8],
) -> Done<Result<Opened, Refusal>, Context>
    ensures { outcome open_values (leaves (told_open result.answer) result.context out.new) ≡ gives (open_message direction message.now out.old) context }
{
    context.open(direction, message, out)
}

pub fn read_next_count(context: Context, direction: Direction) -> u32
    ensures { result ≡ reads (next_count direction) context }
{
    context.next_count(direction)
}

pub fn read_window(context: Context) -> u8
    ensures { result ≡ reads window context }
{
    context.window()
}

pub fn read_integrity(context: Context) -> u8
    ensures { result ≡ reads integrity context }
{
    context.integrity()
}

pub fn read_ciphering(context: Context) -> u8
    ensures { result ≡ reads ciphering context }
{
    context.ciphering()
}
