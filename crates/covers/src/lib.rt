// Every public call of the context again, with a contract in the words of the promises, proved from the call's own contract alone: a contract of nas_5gs that
// says less breaks this crate.
#![tactic(auto)]

ghost use Rattle.std.specs.Prelude.{◌≡◌, []};
ghost use Rattle.nas_core.specs.ChangeAnswer.{told_change};
ghost use Rattle.nas_core.specs.UseAnswer.{told_use};
ghost use Rattle.nas_5gs.specs.OpenAnswer.{told_open};
ghost use Rattle.nas_5gs.specs.EpsOpenAnswer.{told_eps_open};
ghost use Rattle.nas_5gs.specs.OctetAnswer.{told_octet};
ghost use Rattle.nas_5gs.specs.VerifyAnswer.{told_verify};
ghost use Rattle.nas_5gs.specs.Leaves.{leaves, change_values, use_values, open_values, eps_open_values, octet_values, verify_values};
ghost use Rattle.nas_5gs.specs.Places.{bearer_no, direction_no};
ghost use Rattle.promises.specs.Calls.{set_window, seal5gs, seal_opaque, seal_initial, open5gs, seal_eps, open_eps, make_n1_to_s1, verify_n1_to_s1, make_s1_to_n1, verify_s1_to_n1, reselect, create, restore, next_count, window, integrity, ciphering, outcome, gives, second, makes, reads};
ghost use Rattle.handover.specs.Across.{across_of};
ghost use Rattle.promises_handover.specs.Handover.{across, connection_of, beside_of, any_gives};
ghost use Rattle.mixture.specs.Mixture.{window_in, seal_in, open_in, changes, changes_second};

use handover::AcrossAnswer;
use nas_5gs::{Connection, Context, Direction, EpsReceived, MadeOctet, OpenError, Opened, Reached};
use nas_core::{Done, Received, Spent};
use refusals::Refusal;

// kept: each function is a call again under another contract, here and in covers_eps: the contract is what it is for.
pub fn create(
    integrity: u8,
    ciphering: u8,
    integrity_key: [u8; 16],
    ciphering_key: [u8; 16],
) -> Done<Result<(), Refusal>, Context>
    ensures { outcome change_values (leaves (told_change result.answer) result.context []) ≡ makes (create integrity ciphering integrity_key ciphering_key) }
{
    Context::new(integrity, ciphering, integrity_key, ciphering_key)
}

pub fn restore(
    integrity: u8,
    ciphering: u8,
    integrity_key: [u8; 16],
    ciphering_key: [u8; 16],
    next: [u32; 4],
) -> Done<Result<(), Refusal>, Context>
    ensures { outcome change_values (leaves (told_change result.answer) result.context []) ≡ makes (restore integrity ciphering integrity_key ciphering_key next) }
{
    Context::restore(integrity, ciphering, integrity_key, ciphering_key, next)
}

pub fn reselect(
    context: Context,
    integrity: u8,
    ciphering: u8,
    integrity_key: [u8; 16],
    ciphering_key: [u8; 16],
) -> Done<Result<(), Refusal>, Context>
    ensures { outcome change_values (leaves (told_change result.answer) result.context []) ≡ gives (reselect integrity ciphering integrity_key ciphering_key) context }
{
    context.reselect(integrity, ciphering, integrity_key, ciphering_key)
}

pub fn set_window(context: Context, size: u8) -> Done<Result<(), Refusal>, Context>
    ensures { outcome change_values (leaves (told_change result.answer) result.context []) ≡ gives (set_window size) context }
{
    context.set_window(size)
}

pub fn seal_5gs(
    context: Context,
    header_type: u8,
    direction: Direction,
    connection: Connection,
    inner: &[u8],
    out: &mut [u8],
) -> Done<Result<Spent, Refusal>, Context>
    ensures { outcome use_values (leaves (told_use result.answer) result.context out.new) ≡ gives (seal5gs header_type direction connection inner.now out.old) context }
{
    context.seal(header_type, direction, connection, inner, out)
}

pub fn seal_opaque(
    context: Context,
    header_type: u8,
    direction: Direction,
    connection: Connection,
    inner: &[u8],
    out: &mut [u8],
) -> Done<Result<Spent, Refusal>, Context>
    ensures { outcome use_values (leaves (told_use result.answer) result.context out.new) ≡ gives (seal_opaque header_type direction connection inner.now out.old) context }
{
    context.seal_opaque(header_type, direction, connection, inner, out)
}

pub fn seal_initial(
    context: Context,
    connection: Connection,
    whole: &[u8],
    out: &mut [u8],
) -> Done<Result<Spent, Refusal>, Context>
    ensures { outcome use_values (leaves (told_use result.answer) result.context out.new) ≡ gives (seal_initial connection whole.now out.old) context }
{
    context.initial(connection, whole, out)
}

pub fn open_5gs(
    context: Context,
    direction: Direction,
    connection: Connection,
    message: &[u8],
    out: &mut [u8],
    out2: &mut [u8],
) -> Done<Result<Opened, OpenError<Received>>, Context>
    ensures first { outcome open_values (leaves (told_open result.answer) result.context out.new) ≡ gives (open5gs direction connection message.now out.old out2.old) context }
    ensures second { out2.new ≡ second (open5gs direction connection message.now out.old out2.old) context }
{
    context.open(direction, connection, message, out, out2)
}

pub fn seal_eps(
    context: Context,
    inner: &[u8],
    out: &mut [u8],
) -> Done<Result<Spent, Refusal>, Context>
    ensures { outcome use_values (leaves (told_use result.answer) result.context out.new) ≡ gives (seal_eps inner.now out.old) context }
{
    context.seal_eps(inner, out)
}

pub fn open_eps(
    context: Context,
    message: &[u8],
    out: &mut [u8],
) -> Done<Result<EpsReceived, OpenError<EpsReceived>>, Context>
    ensures { outcome eps_open_values (leaves (told_eps_open result.answer) result.context out.new) ≡ gives (open_eps message.now out.old) context }
{
    context.open_eps(message, out)
}

pub fn make_n1_to_s1(context: Context) -> Done<Result<MadeOctet, Refusal>, Context>
    ensures { outcome octet_values (leaves (told_octet result.answer) result.context []) ≡ gives make_n1_to_s1 context }
{
    context.n1_to_s1_container()
}

pub fn verify_n1_to_s1(context: Context, octet: u8) -> Done<Result<Reached, Refusal>, Context>
    ensures { outcome verify_values (leaves (told_verify result.answer) result.context []) ≡ gives (verify_n1_to_s1 octet) context }
{
    context.verify_n1_to_s1_container(octet)
}

pub fn make_s1_to_n1(
    context: Context,
    ncc: u8,
    ngksi: u8,
    out: &mut [u8],
) -> Done<Result<Spent, Refusal>, Context>
    ensures { outcome use_values (leaves (told_use result.answer) result.context out.new) ≡ gives (make_s1_to_n1 ncc ngksi out.old) context }
{
    context.s1_to_n1_container(ncc, ngksi, out)
}

pub fn verify_s1_to_n1(context: Context, value: &[u8]) -> Done<Result<Spent, Refusal>, Context>
    ensures { outcome use_values (leaves (told_use result.answer) result.context []) ≡ gives (verify_s1_to_n1 value.now) context }
{
    context.verify_s1_to_n1_container(value)
}

pub fn read_next_count(context: Context, direction: Direction, connection: Connection) -> u32
    ensures { result ≡ reads (next_count direction connection) context }
{
    context.next_count(direction, connection)
}

pub fn read_window(context: Context) -> u8
    ensures { result ≡ reads window context }
{
    context.window()
}

pub fn read_integrity(context: Context) -> u8
    ensures { result ≡ reads integrity context }
{
    context.integrity()
}

pub fn read_ciphering(context: Context) -> u8
    ensures { result ≡ reads ciphering context }
{
    context.ciphering()
}

// The numbers that the algorithms take for a connection and a direction.
pub fn bearer(connection: Connection) -> u8
    ensures { result ≡ bearer_no connection }
{
    connection.bearer()
}

pub fn direction(direction: Direction) -> u8
    ensures { result ≡ direction_no direction }
{
    direction.number()
}

pub fn set_window_in_place(context: &mut Context, size: u8) -> Result<(), Refusal>
    ensures { outcome change_values (leaves (told_change result) context.new []) ≡ changes (window_in size) context.old }
{
    nas_host::set_window(context, size)
}

pub fn seal_in_place(
    context: &mut Context,
    header_type: u8,
    direction: Direction,
    connection: Connection,
    inner: &[u8],
    out: &mut [u8],
) -> Result<Spent, Refusal>
    ensures { outcome use_values (leaves (told_use result) context.new out.new) ≡ changes (seal_in header_type direction connection inner.now out.old) context.old }
{
    nas_host::seal(context, header_type, direction, connection, inner, out)
}

pub fn open_in_place(
    context: &mut Context,
    direction: Direction,
    connection: Connection,
    message: &[u8],
    out: &mut [u8],
    out2: &mut [u8],
) -> Result<Opened, OpenError<Received>>
    ensures { (outcome open_values (leaves (told_open result) context.new out.new) ≡ changes (open_in direction connection message.now out.old out2.old) context.old) × (out2.new ≡ changes_second (open_in direction connection message.now out.old out2.old) context.old) }
{
    nas_host::open(context, direction, connection, message, out, out2)
}

pub fn open_across(
    context: Context,
    direction: Direction,
    connection: Connection,
    message: &[u8],
    out: &mut [u8],
    out2: &mut [u8],
) -> Done<AcrossAnswer, Context>
    ensures first { outcome open_values (leaves (told_open result.answer.answer) result.context out.new) ≡ any_gives (across direction connection message.now out.old out2.old) context }
    ensures beside { (result.answer.connection ≡ connection_of (across_of context direction connection message.now out.old out2.old)) × (out2.new ≡ beside_of (across_of context direction connection message.now out.old out2.old)) }
{
    handover::open_across(context, direction, connection, message, out, out2)
}
