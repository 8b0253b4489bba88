// The line of an answer. Each function puts its text behind what stands before a place, and answers the place after it.
#![tactic(auto)]

ghost use Rattle.std.specs.Prelude.{◌≡◌, [], ◌++◌, ◌+◌, ◌*◌, ◌≤◌, length, take, drop};
ghost use Rattle.hex_print.specs.Words.{Puts, word, decimal_word, octets_word, ok, no};
ghost use Rattle.hex_print.specs.Lines.{wrote_of, second_of, used_text, received_text, content_text, answer_text, second_text, is_kept, tail_text, context_text, end_text, line_text};

pub mod context;
pub mod words;

use hex_perform::Answer;
use nas_5gs::Context;

// How many octets a call wrote in its output.
pub fn wrote(answer: Answer) -> usize
    ensures { result ≡ wrote_of answer }
{
    match answer {
        Answer::Used { wrote, .. }
        | Answer::Opened { wrote, .. }
        | Answer::Content { wrote, .. }
        | Answer::EpsContent { wrote, .. }
        | Answer::Received { wrote, .. }
        | Answer::OpenedOn { wrote, .. }
        | Answer::ContentOn { wrote, .. } => wrote,
        _ => 0,
    }
}

// How many in the second output.
pub fn second(answer: Answer) -> usize
    ensures { result ≡ second_of answer }
{
    match answer {
        Answer::Opened { second, .. } | Answer::OpenedOn { second, .. } => second,
        _ => 0,
    }
}

// COUNT and WROTE.
fn used(count: u32, wrote: usize, out: &mut [u8], at: usize) -> usize
    requires { at + 64 ≤ length out.old }
    ensures { Puts out.old at (used_text count wrote) out.new result × (result ≤ at + 34) }
{
    let next = words::word(count as u64, 4, out, at);
    words::word(wrote as u64, 2, out, next)
}

fn success(count: u32, wrote: usize, out: &mut [u8], at: usize) -> usize
    requires { at + 128 ≤ length out.old }
    ensures { Puts out.old at (ok ++ used_text count wrote) out.new result × (result ≤ at + 36) }
{
    let next = words::text(b"ok", out, at);
    used(count, wrote, out, next)
}

// COUNT, distance and WROTE.
fn received(count: u32, distance: u32, wrote: usize, out: &mut [u8], at: usize) -> usize
    requires { at + 64 ≤ length out.old }
    ensures { Puts out.old at (received_text count distance wrote) out.new result × (result ≤ at + 51) }
{
    let next = words::word(count as u64, 4, out, at);
    let far = words::word(distance as u64, 4, out, next);
    words::word(wrote as u64, 2, out, far)
}

pub fn accepted(count: u32, distance: u32, wrote: usize, out: &mut [u8], at: usize) -> usize
    requires { at + 128 ≤ length out.old }
    ensures { Puts out.old at (ok ++ received_text count distance wrote) out.new result × (result ≤ at + 53) }
{
    let next = words::text(b"ok", out, at);
    received(count, distance, wrote, out, next)
}

pub fn refusal(number: u8, out: &mut [u8], at: usize) -> usize
    requires { at + 64 ≤ length out.old }
    ensures { Puts out.old at (no ++ decimal_word number) out.new result × (result ≤ at + 6) }
{
    let next = words::text(b"no", out, at);
    words::decimal(number, out, next)
}

fn content(count: u32, distance: u32, wrote: usize, out: &mut [u8], at: usize) -> usize
    requires { at + 128 ≤ length out.old }
    ensures { Puts out.old at (content_text count distance wrote) out.new result × (result ≤ at + 57) }
{
    let next = refusal(8, out, at);
    received(count, distance, wrote, out, next)
}

// The answers that use a COUNT, each with the octets behind its numbers.

pub fn put_used(count: u32, wrote: usize, written: &[u8], out: &mut [u8], at: usize) -> usize
    requires { at + 1024 + length written.now * 2 ≤ length out.old }
    ensures { Puts out.old at (ok ++ used_text count wrote ++ octets_word written.now) out.new result × (result ≤ at + 250 + length written.now * 2) }
{
    let next = success(count, wrote, out, at);
    words::octets(written, out, next)
}

fn put_made(count: u32, octet: u8, out: &mut [u8], at: usize) -> usize
    requires { at + 1024 ≤ length out.old }
    ensures { Puts out.old at (ok ++ used_text count 0 ++ word 1 octet ++ octets_word []) out.new result × (result ≤ at + 250) }
{
    let next = success(count, 0, out, at);
    let made = words::word(octet as u64, 1, out, next);
    words::octets(&[], out, made)
}

fn put_received(
    count: u32,
    distance: u32,
    wrote: usize,
    written: &[u8],
    out: &mut [u8],
    at: usize,
) -> usize
    requires { at + 1024 + length written.now * 2 ≤ length out.old }
    ensures { Puts out.old at (ok ++ received_text count distance wrote ++ octets_word written.now) out.new result × (result ≤ at + 250 + length written.now * 2) }
{
    let next = accepted(count, distance, wrote, out, at);
    words::octets(written, out, next)
}

pub fn put_opened(
    count: u32,
    distance: u32,
    wrote: usize,
    header: u8,
    written: &[u8],
    out: &mut [u8],
    at: usize,
) -> usize
    requires { at + 1024 + length written.now * 2 ≤ length out.old }
    ensures { Puts out.old at (ok ++ received_text count distance wrote ++ word 1 header ++ octets_word written.now) out.new result × (result ≤ at + 250 + length written.now * 2) }
{
    let next = accepted(count, distance, wrote, out, at);
    let typed = words::word(header as u64, 1, out, next);
    words::octets(written, out, typed)
}

fn put_content(
    count: u32,
    distance: u32,
    wrote: usize,
    header: u8,
    number: u8,
    written: &[u8],
    out: &mut [u8],
    at: usize,
) -> usize
    requires { at + 1024 + length written.now * 2 ≤ length out.old }
    ensures { Puts out.old at (content_text count distance wrote ++ word 1 header ++ decimal_word number ++ octets_word written.now) out.new result × (result ≤ at + 250 + length written.now * 2) }
{
    let next = content(count, distance, wrote, out, at);
    let typed = words::word(header as u64, 1, out, next);
    let carried = words::decimal(number, out, typed);
    words::octets(written, out, carried)
}

fn put_eps_content(
    count: u32,
    distance: u32,
    wrote: usize,
    number: u8,
    written: &[u8],
    out: &mut [u8],
    at: usize,
) -> usize
    requires { at + 1024 + length written.now * 2 ≤ length out.old }
    ensures { Puts out.old at (content_text count distance wrote ++ decimal_word number ++ octets_word written.now) out.new result × (result ≤ at + 250 + length written.now * 2) }
{
    let next = content(count, distance, wrote, out, at);
    let carried = words::decimal(number, out, next);
    words::octets(written, out, carried)
}

// With the digit of the connection that the message was taken on in front.

fn put_opened_on(
    connection: u8,
    count: u32,
    distance: u32,
    wrote: usize,
    header: u8,
    written: &[u8],
    out: &mut [u8],
    at: usize,
) -> usize
    requires { at + 1024 + length written.now * 2 ≤ length out.old }
    ensures { Puts out.old at (ok ++ decimal_word connection ++ received_text count distance wrote ++ word 1 header ++ octets_word written.now) out.new result × (result ≤ at + 250 + length written.now * 2) }
{
    let next = words::text(b"ok", out, at);
    let taken = words::decimal(connection, out, next);
    let far = received(count, distance, wrote, out, taken);
    let typed = words::word(header as u64, 1, out, far);
    words::octets(written, out, typed)
}

fn put_content_on(
    connection: u8,
    count: u32,
    distance: u32,
    wrote: usize,
    header: u8,
    number: u8,
    written: &[u8],
    out: &mut [u8],
    at: usize,
) -> usize
    requires { at + 1024 + length written.now * 2 ≤ length out.old }
    ensures { Puts out.old at (no ++ decimal_word 8 ++ decimal_word connection ++ received_text count distance wrote ++ word 1 header ++ decimal_word number ++ octets_word written.now) out.new result × (result ≤ at + 250 + length written.now * 2) }
{
    let next = refusal(8, out, at);
    let taken = words::decimal(connection, out, next);
    let far = received(count, distance, wrote, out, taken);
    let typed = words::word(header as u64, 1, out, far);
    let carried = words::decimal(number, out, typed);
    words::octets(written, out, carried)
}

// An answer with the octets that were written in the output, or the context for `show`.
pub fn answer_text(
    answer: Answer,
    context: Context,
    written: &[u8],
    out: &mut [u8],
    at: usize,
) -> usize
    requires { at + 1024 + length written.now * 2 ≤ length out.old }
    ensures { Puts out.old at (answer_text answer context written.now) out.new result × (result ≤ at + 250 + length written.now * 2) }
{
    match answer {
        Answer::Bad => words::text(b"bad", out, at),
        Answer::Done => words::text(b"ok", out, at),
        Answer::Shown => context::shown(context, out, at),
        Answer::Refused(number) => refusal(number, out, at),
        Answer::Used { count, wrote } => put_used(count, wrote, written, out, at),
        Answer::Made { count, octet } => put_made(count, octet, out, at),
        Answer::Opened {
            count,
            distance,
            wrote,
            header,
            ..
        } => put_opened(count, distance, wrote, header, written, out, at),
        Answer::Content {
            count,
            distance,
            wrote,
            header,
            number,
        } => put_content(count, distance, wrote, header, number, written, out, at),
        Answer::EpsContent {
            count,
            distance,
            wrote,
            number,
        } => put_eps_content(count, distance, wrote, number, written, out, at),
        Answer::Received {
            count,
            distance,
            wrote,
        } => put_received(count, distance, wrote, written, out, at),
        Answer::OpenedOn {
            connection,
            count,
            distance,
            wrote,
            header,
            ..
        } => put_opened_on(connection, count, distance, wrote, header, written, out, at),
        Answer::ContentOn {
            connection,
            count,
            distance,
            wrote,
            header,
            number,
        } => put_content_on(
            connection, count, distance, wrote, header, number, written, out, at,
        ),
    }
}

fn put_second(wrote: usize, written: &[u8], out: &mut [u8], at: usize) -> usize
    requires { at + 64 + length written.now * 2 ≤ length out.old }
    ensures { Puts out.old at (word 2 wrote ++ octets_word written.now) out.new result × (result ≤ at + 19 + length written.now * 2) }
{
    let next = words::word(wrote as u64, 2, out, at);
    words::octets(written, out, next)
}

// WROTE2 and OCTETS2, behind an answer of `open`.
#[tactic(auto, unfolding(crate::specs::Lines::second_text), using(crate::proofs::Laws::nothing))]
pub fn second_text(answer: Answer, written: &[u8], out: &mut [u8], at: usize) -> usize
    requires { at + 64 + length written.now * 2 ≤ length out.old }
    ensures { Puts out.old at (second_text answer written.now) out.new result × (result ≤ at + 19 + length written.now * 2) }
{
    match answer {
        Answer::Opened { second, .. } | Answer::OpenedOn { second, .. } => put_second(
            second, written, out, at,
        ),
        Answer::Content { .. } | Answer::ContentOn { .. } => put_second(0, written, out, at),
        _ => at,
    }
}

fn is_kept(rest: &[u8]) -> bool
    ensures { result ≡ is_kept rest.now }
{
    rest.iter().all(|octet| *octet == hex_perform::FILL)
}

#[tactic(auto, unfolding(crate::specs::Lines::tail_text), using(crate::proofs::Laws::nothing))]
fn tail(rest: &[u8], second: &[u8], out: &mut [u8], at: usize) -> usize
    requires { at + 6 ≤ length out.old }
    ensures { Puts out.old at (tail_text rest.now second.now) out.new result × (result ≤ at + 6) }
{
    if is_kept(rest) && is_kept(second) {
        return at;
    }
    words::text(b" !tail", out, at)
}

fn context_mark(is_changed: bool, out: &mut [u8], at: usize) -> usize
    requires { at + 9 ≤ length out.old }
    ensures { Puts out.old at (context_text is_changed) out.new result × (result ≤ at + 9) }
{
    if is_changed {
        return words::text(b" !context", out, at);
    }
    at
}

// What stands behind the octets of a line: what is left of the two outputs, and whether a refusal changed the context.
pub fn put_end(rest: &[u8], second: &[u8], is_changed: bool, out: &mut [u8], at: usize) -> usize
    requires { at + 16 ≤ length out.old }
    ensures { Puts out.old at (end_text rest.now second.now is_changed) out.new result × (result ≤ at + 16) }
{
    let tailed = tail(rest, second, out, at);
    let marked = context_mark(is_changed, out, tailed);
    words::text(b"\n", out, marked)
}

// The line of an answer. `lent` and `beside` are the outputs that were lent to the call.
pub fn put_line(
    answer: Answer,
    context: Context,
    lent: &[u8],
    beside: &[u8],
    is_changed: bool,
    out: &mut [u8],
    at: usize,
) -> usize
    requires { at + 1200 + length lent.now * 2 + length beside.now * 2 ≤ length out.old }
    ensures { Puts out.old at (line_text answer context lent.now beside.now is_changed) out.new result × (result ≤ at + 1200 + length lent.now * 2 + length beside.now * 2) }
{
    let n = wrote(answer);
    let m = second(answer);
    let told = answer_text(answer, context, hex_lines::front(lent, n), out, at);
    let next = second_text(answer, hex_lines::front(beside, m), out, told);
    let rest = hex_lines::after(lent, n);
    put_end(rest, hex_lines::after(beside, m), is_changed, out, next)
}
