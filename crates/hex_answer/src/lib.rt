// A call of a hex line performed on a context, and the line of its answer told, whole or in pieces.
#![tactic(auto)]

ghost use Rattle.std.specs.Prelude.{◌+◌, ◌≤◌, length};

use hex_parse::{Call, Line};
use hex_perform::Answer;
use nas_5gs::Context;
use nas_core::Done;

// What a line leaves: its slot's context, and the place after its answer.
#[derive(Clone, Copy)]
pub struct Reply<X> {
    pub context: X,
    pub at: usize,
}

// Whether a refusal other than 8 changed the context. Creation and restore hand back a context whatever the slot held.
fn is_changed(call: Call, done: Done<Answer, Context>, before: Context) -> bool {
    match (call, done.answer) {
        (Call::New { .. } | Call::Restore { .. }, _) => false,
        (_, Answer::Refused(_)) => done.context != before,
        _ => false,
    }
}

pub fn flush(print: &[u8], at: usize) {
    if at <= print.len() {
        io::write_all(1, &print[..at]);
    }
}

// So many octets are printed at once, and so many characters are the most that a line with them has.
pub const PIECE: usize = 16384;

const LONGEST: usize = 34000;

// The place for a line or a piece more: the front, with what is there written out, if there is no room behind it.
pub fn room(print: &[u8], at: usize) -> usize
    requires { 34000 ≤ length print.now }
    ensures { result + 34000 ≤ length print.now }
{
    if at <= print.len() - LONGEST {
        return at;
    }
    flush(print, at);
    0
}

fn piece_told(octets: &[u8], print: &mut [u8; 65536], at: usize) -> usize
    requires { length octets.now ≤ 16384 }
    ensures { result ≤ 65536 }
{
    let from = room(print, at);
    hex_lines::put_octets(octets, print, from)
}

// The octets behind those that a line begins with.
pub fn rest_told(octets: &[u8], print: &mut [u8; 65536], at: usize) -> usize
    ensures { result ≤ 65536 }
{
    let mut end = room(print, at);
    for piece in octets.chunks(PIECE) {
        end = piece_told(piece, print, end);
    }
    end
}

// An answer and the n octets that it wrote.
fn answer_told(
    done: Done<Answer, Context>,
    written: &[u8],
    print: &mut [u8; 65536],
    at: usize,
) -> usize
    ensures { result ≤ 65536 }
{
    let from = room(print, at);
    let first = written.len().min(PIECE);
    let begun = hex_print::answer_text(done.answer, done.context, &written[..first], print, from);
    rest_told(&written[first..], print, begun)
}

// What it wrote in the second output.
fn second_told(answer: Answer, written: &[u8], print: &mut [u8; 65536], at: usize) -> usize
    ensures { result ≤ 65536 }
{
    let from = room(print, at);
    let first = written.len().min(PIECE);
    let begun = hex_print::second_text(answer, &written[..first], print, from);
    rest_told(&written[first..], print, begun)
}

// The line of an answer in pieces.
fn told(
    done: Done<Answer, Context>,
    lent: &[u8],
    second: &[u8],
    is_changed: bool,
    print: &mut [u8; 65536],
    at: usize,
) -> usize
    ensures { result ≤ 65536 }
{
    let wrote = hex_print::wrote(done.answer).min(lent.len());
    let beside = hex_print::second(done.answer).min(second.len());
    let begun = answer_told(done, &lent[..wrote], print, at);
    let next = second_told(done.answer, &second[..beside], print, begun);
    let from = room(print, next);
    hex_print::put_end(&lent[wrote..], &second[beside..], is_changed, print, from)
}

// The line of an answer: whole, or in pieces where more is lent than is printed at once.
fn printed(
    done: Done<Answer, Context>,
    lent: &[u8],
    second: &[u8],
    is_changed: bool,
    print: &mut [u8; 65536],
    at: usize,
) -> usize
    ensures { result ≤ 65536 }
{
    if PIECE / 2 < lent.len().max(second.len()) {
        return told(done, lent, second, is_changed, print, at);
    }
    let from = room(print, at);
    hex_print::put_line(
        done.answer,
        done.context,
        lent,
        second,
        is_changed,
        print,
        from,
    )
}

// The call of a line on a context, and the line of its answer.
pub fn replied(
    line: Line,
    before: Context,
    octets: &[u8],
    lent: &mut [u8],
    second: &mut [u8],
    print: &mut [u8; 65536],
    at: usize,
) -> Reply<Context>
    ensures { result.at ≤ 65536 }
{
    let n = line.room.min(lent.len());
    let m = line.second.min(second.len());
    let lent = &mut lent[..n];
    let second = &mut second[..m];
    hex_perform::fill(lent);
    hex_perform::fill(second);
    let held = hex_lines::front(octets, line.octets.unwrap_or(0));
    let done = hex_perform::perform(line, before, held, lent, second);
    let is_changed = is_changed(line.call, done, before);
    let at = printed(done, lent, second, is_changed, print, at);
    Reply {
        context: done.context,
        at,
    }
}
