// Reads hex lines from standard input, performs each on one of eight 5GS or eight EPS contexts, and prints one line for each.
#![tactic(auto)]

use hex_input::Input;
use hex_parse::{Call, Line};
use std::io::{Read, Result, Stdin};

// What is kept from line to line.
#[derive(Drop)]
struct Session {
    slots: [nas_5gs::Context; 8],
    eps: [nas_eps::Context; 8],
    // the line that is being read, the front of its text and the octets of its digits
    input: Input,
    text: [u8; 4096],
    octets: [u8; 65536],
    // the outputs that each call is lent
    lent: [u8; 65536],
    second: [u8; 65536],
    // the lines that are not written out yet, and the place after them
    print: [u8; 65536],
    at: usize,
}

impl Session {
    // Each slot begins with the context that a refused creation hands back.
    fn new() -> Session {
        Session {
            slots: [nas_5gs::Context::new(255, 255, [0; 16], [0; 16]).context; 8],
            eps: [nas_eps::Context::new(255, 255, [0; 16], [0; 16]).context; 8],
            input: Input::new(),
            text: [0; 4096],
            octets: [0; 65536],
            lent: [0; 65536],
            second: [0; 65536],
            print: [0; 65536],
            at: 0,
        }
    }

    // Answers a line of the 5GS context.
    fn perform(&mut self, line: Line) {
        let slot = line.slot % 8;
        let reply = hex_answer::replied(
            line,
            self.slots[slot],
            &self.octets,
            &mut self.lent,
            &mut self.second,
            &mut self.print,
            self.at,
        );
        self.slots[slot] = reply.context;
        self.at = reply.at;
    }

    // Answers a line of the EPS context, or one that has no form.
    fn perform_eps(&mut self, line: hex_eps_parse::Line) {
        let slot = line.slot % 8;
        let reply = hex_eps_answer::replied(
            line,
            self.eps[slot],
            &self.octets,
            &mut self.lent,
            &mut self.print,
            self.at,
        );
        self.eps[slot] = reply.context;
        self.at = reply.at;
    }

    // Answers the line that was read, and begins the next one. The names of the EPS lines are none of the 5GS ones, so no line is both.
    fn answer(&mut self) {
        let input = self.input;
        self.input = Input::new();
        let line = input.line(&self.text, &mut self.lent);
        match line.call {
            Call::Bad => {
                let line = input.eps_line(&self.text, &mut self.lent);
                self.perform_eps(line);
            }
            _ => self.perform(line),
        }
    }

    // Takes in a piece of a line.
    fn hold(&mut self, piece: &[u8]) {
        self.input = self.input.with(piece, &mut self.text, &mut self.octets);
    }

    // Takes in what was read, and answers each line that ends in it.
    fn take(&mut self, input: &[u8]) {
        for piece in input.split_inclusive(|octet| *octet == b'\n') {
            match piece.strip_suffix(b"\n") {
                Some(end) => {
                    self.hold(end);
                    self.answer();
                }
                None => self.hold(piece),
            }
        }
    }

    // kept: as in journal_read, whose buffer and place are fields of a struct of its own.
    fn flush(&mut self) {
        hex_answer::flush(&self.print, self.at);
        self.at = 0;
    }

    // Reads once, answers the lines that came, and says how many octets were read: none at the end of the input.
    fn read_some(&mut self, stdin: &mut Stdin, input: &mut [u8]) -> Result<usize> {
        let n = stdin.read(input)?;
        self.take(hex_lines::front(input, n));
        self.flush();
        Ok(n)
    }

    // What follows the last line end is a line too.
    fn finish(&mut self) {
        if self.input.held != 0 {
            self.answer();
            self.flush();
        }
    }
}

fn main(rt: HostRuntime) {
    let mut stdin = rt.stdin();
    let mut input = io::large_buffer();
    let mut session = Session::new();
    // no run uses the turns up
    for _ in 0..u64::MAX {
        match session.read_some(&mut stdin, &mut input) {
            Ok(0) => {
                session.finish();
                return;
            }
            Ok(_) => {}
            // what was read of the last line is not known to be one
            Err(_) => {
                io::write_all(2, b"nas_hex: a read failed\n");
                return;
            }
        }
    }
}
