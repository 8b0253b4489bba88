// A call of an EPS hex line performed on an EPS context, and the line of its answer told, whole or in pieces.
#![tactic(auto)]

ghost use Rattle.std.specs.Prelude.{◌≤◌};

use hex_answer::Reply;
use hex_eps::Answer;
use hex_eps_parse::{Call, Line};
use nas_core::Done;
use nas_eps::Context;

// kept: `is_changed`, `told` and `printed` as in hex_answer. They call this context's functions: a trait of five methods would stand for three functions.
// Whether a refusal changed the context. Creation and restore hand back a context whatever the slot held.
fn is_changed(call: Call, done: Done<Answer, Context>, before: Context) -> bool {
    match (call, done.answer) {
        (Call::New { .. } | Call::Restore { .. }, _) => false,
        (_, Answer::Refused(_)) => done.context != before,
        _ => false,
    }
}

// The line of an answer in pieces.
fn told(
    done: Done<Answer, Context>,
    lent: &[u8],
    is_changed: bool,
    print: &mut [u8; 65536],
    at: usize,
) -> usize
    ensures { result ≤ 65536 }
{
    let wrote = hex_eps::print::wrote(done.answer).min(lent.len());
    let first = wrote.min(hex_answer::PIECE);
    let from = hex_answer::room(print, at);
    let begun = hex_eps::print::answer_text(done.answer, done.context, &lent[..first], print, from);
    let next = hex_answer::rest_told(&lent[first..wrote], print, begun);
    let end = hex_answer::room(print, next);
    hex_print::put_end(&lent[wrote..], &[], is_changed, print, end)
}

// The line of an answer: whole, or in pieces where more is lent than is printed at once.
fn printed(
    done: Done<Answer, Context>,
    lent: &[u8],
    is_changed: bool,
    print: &mut [u8; 65536],
    at: usize,
) -> usize
    ensures { result ≤ 65536 }
{
    if hex_answer::PIECE < lent.len() {
        return told(done, lent, is_changed, print, at);
    }
    let from = hex_answer::room(print, at);
    hex_eps::print::put_line(done.answer, done.context, lent, is_changed, print, from)
}

// The call of a line on a context, and the line of its answer.
pub fn replied(
    line: Line,
    before: Context,
    octets: &[u8],
    lent: &mut [u8],
    print: &mut [u8; 65536],
    at: usize,
) -> Reply<Context>
    ensures { result.at ≤ 65536 }
{
    let n = line.room.min(lent.len());
    let lent = &mut lent[..n];
    hex_perform::fill(lent);
    let held = hex_lines::front(octets, line.octets.unwrap_or(0));
    let done = hex_eps::perform(line, before, held, lent);
    let is_changed = is_changed(line.call, done, before);
    let at = printed(done, lent, is_changed, print, at);
    Reply {
        context: done.context,
        at,
    }
}
