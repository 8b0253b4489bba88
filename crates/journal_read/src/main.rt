// Reads a journal of any length from standard input, performs its calls on one context, and prints the line of each; of octets that are no record it prints how
// many were skipped.
#![tactic(auto)]

ghost use Rattle.std.specs.Prelude.{◌≤◌};

use journal::Step;
use nas_5gs::Context;
use std::io::{Read, Result, Stdin};

// The octets of a record before its bytes.
const HEAD: usize = 5;

// The octets that were read and not yet passed, from `start` to `end`, and whether nothing follows them.
#[derive(Drop)]
struct Window {
    octets: [u8; 65536],
    start: usize,
    end: usize,
    is_end: bool,
    ghost in_range: { (start ≤ end) × (end ≤ 65536) },
}

impl Window {
    fn new() -> Window {
        Window {
            octets: [0; 65536],
            start: 0,
            end: 0,
            is_end: false,
        }
    }

    fn shown(&self) -> &[u8] {
        &self.octets[self.start..self.end]
    }

    // Passes n octets, and no more than there are.
    fn pass(&mut self, n: usize) {
        self.start += n.min(self.end - self.start);
    }

    // Reads once more behind them. What lies at the end of the window goes to its front first.
    fn fill(&mut self, stdin: &mut Stdin) -> Result<()> {
        if self.end == self.octets.len() {
            self.octets.copy_within(self.start..self.end, 0);
            self.end -= self.start;
            self.start = 0;
        }
        let n = stdin.read(&mut self.octets[self.end..])?;
        self.end += n;
        self.is_end = n == 0;
        Ok(())
    }
}

#[derive(Drop)]
struct Reader {
    context: Context,
    window: Window,
    // how many octets were skipped since the last record
    skipped: u64,
    // the outputs that each call is lent
    lent: [u8; 65536],
    second: [u8; 65536],
    // the lines that are not written out yet, and the place after them
    print: [u8; 65536],
    at: usize,
}

impl Reader {
    // At the start the context is the one that a refused creation hands back.
    fn new() -> Reader {
        Reader {
            context: Context::new(255, 255, [0; 16], [0; 16]).context,
            window: Window::new(),
            skipped: 0,
            lent: [0; 65536],
            second: [0; 65536],
            print: [0; 65536],
            at: 0,
        }
    }

    // kept: as in nas_hex, whose buffer and place are fields of a struct of its own.
    fn flush(&mut self) {
        hex_answer::flush(&self.print, self.at);
        self.at = 0;
    }

    // Tells of the stretch that ends here.
    fn tell_skipped(&mut self) {
        if self.skipped == 0 {
            return;
        }
        let mut digits = [0; 20];
        let n = io::decimal(self.skipped, &mut digits);
        let from = hex_answer::room(&self.print, self.at);
        let told = hex_lines::put_text(b"skipped ", &mut self.print, from);
        let counted = hex_lines::put_text(&digits[..n], &mut self.print, told);
        self.at = hex_lines::put_text(b"\n", &mut self.print, counted);
        self.skipped = 0;
    }

    // Performs the call of the record that the window begins with, which has n bytes.
    fn perform(&mut self, kind: u8, n: usize) {
        self.tell_skipped();
        self.window.pass(HEAD);
        let octets = hex_lines::front(self.window.shown(), n);
        let reply = hex_answer::replied(
            journal_lines::line_of(kind, octets),
            self.context,
            journal_calls::rest(kind, octets),
            &mut self.lent,
            &mut self.second,
            &mut self.print,
            self.at,
        );
        self.context = reply.context;
        self.at = reply.at;
        self.window.pass(n);
    }

    fn skip(&mut self) {
        self.window.pass(1);
        self.skipped = self.skipped.saturating_add(1);
    }
}

fn main(rt: HostRuntime) {
    let mut stdin = rt.stdin();
    let mut reader = Reader::new();
    // no run uses the steps up
    for _ in 0..u64::MAX {
        match journal::step_of(reader.window.shown(), reader.window.is_end) {
            Step::Call { kind, n } => reader.perform(kind, n),
            Step::Pass => reader.skip(),
            Step::More => {
                reader.flush();
                if reader.window.fill(&mut stdin).is_err() {
                    io::write_all(2, b"journal_read: a read failed\n");
                    return;
                }
            }
            Step::End => {
                reader.tell_skipped();
                reader.flush();
                return;
            }
        }
    }
}
