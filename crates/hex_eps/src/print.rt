// The line of an answer. Each function puts its text behind what stands before a place, and answers the place after it.
ghost use Rattle.std.specs.Prelude.{◌≡◌, ◌+◌, ◌*◌, ◌≤◌, length};
ghost use Rattle.hex_print.specs.Words.{Puts};
ghost use Rattle.hex_eps.specs.Lines.{wrote_of, shown_text, request_text, answer_text, line_text};

use crate::Answer;
use hex_print::{context, words};
use nas_eps::Context;

// How many octets a call wrote in its output.
pub fn wrote(answer: Answer) -> usize
    ensures { result ≡ wrote_of answer }
{
    match answer {
        Answer::Used { wrote, .. } | Answer::Opened { wrote, .. } => wrote,
        _ => 0,
    }
}

// A context, as `eshow` prints it.
fn shown(context: Context, out: &mut [u8], at: usize) -> usize
    requires { at + 1024 ≤ length out.old }
    ensures { Puts out.old at (shown_text context) out.new result × (result ≤ at + 172) }
{
    let next = context::core(context.core, out, at);
    let up = context::record(context.records[0], out, next);
    context::record(context.records[1], out, up)
}

// A SERVICE REQUEST hands over no octet.
fn put_request(count: u32, distance: u32, identifier: u8, out: &mut [u8], at: usize) -> usize
    requires { at + 1024 ≤ length out.old }
    ensures { Puts out.old at (request_text count distance identifier) out.new result × (result ≤ at + 250) }
{
    let next = hex_print::accepted(count, distance, 0, out, at);
    let typed = words::word(12, 1, out, next);
    let named = words::word(identifier as u64, 1, out, typed);
    words::octets(&[], out, named)
}

// An answer with the octets that were written in the output, or the context for `eshow`.
pub fn answer_text(
    answer: Answer,
    context: Context,
    written: &[u8],
    out: &mut [u8],
    at: usize,
) -> usize
    requires { at + 1024 + length written.now * 2 ≤ length out.old }
    ensures { Puts out.old at (answer_text answer context written.now) out.new result × (result ≤ at + 250 + length written.now * 2) }
{
    match answer {
        Answer::Bad => words::text(b"bad", out, at),
        Answer::Done => words::text(b"ok", out, at),
        Answer::Shown => shown(context, out, at),
        Answer::Refused(number) => hex_print::refusal(number, out, at),
        Answer::Used { count, wrote } => hex_print::put_used(count, wrote, written, out, at),
        Answer::Opened {
            count,
            distance,
            wrote,
            header,
        } => hex_print::put_opened(count, distance, wrote, header, written, out, at),
        Answer::Request {
            count,
            distance,
            identifier,
        } => put_request(count, distance, identifier, out, at),
    }
}

// The line of an answer. `lent` is the output that was lent to the call.
pub fn put_line(
    answer: Answer,
    context: Context,
    lent: &[u8],
    is_changed: bool,
    out: &mut [u8],
    at: usize,
) -> usize
    requires { at + 1200 + length lent.now * 2 ≤ length out.old }
    ensures { Puts out.old at (line_text answer context lent.now is_changed) out.new result × (result ≤ at + 1200 + length lent.now * 2) }
{
    let n = wrote(answer);
    let told = answer_text(answer, context, hex_lines::front(lent, n), out, at);
    let rest = hex_lines::after(lent, n);
    hex_print::put_end(rest, &[], is_changed, out, told)
}
