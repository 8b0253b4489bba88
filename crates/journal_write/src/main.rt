// Reads hex lines from standard input and writes the journal of those that are calls on slot 0 to standard output. It makes no call and keeps no context.
#![tactic(auto)]

ghost use Rattle.std.specs.Prelude.{◌≡◌, ◌+◌, ◌≤◌};

use hex_input::Input;
use refusals::Refusal;
use std::io::Read;

// So many octets has the longest record.
const LONGEST: usize = 60005;

#[derive(Drop)]
struct Writer {
    // the line that is being read, its text, its octets, and octets that nobody reads
    input: Input,
    text: [u8; 4096],
    octets: [u8; 65536],
    spare: [u8; 65536],
    // the records that are not written out yet, and the place after them
    out: [u8; 65536],
    at: usize,
    // how many lines were left out
    left: u64,
}

impl Writer {
    fn new() -> Writer {
        Writer {
            input: Input::new(),
            text: [0; 4096],
            octets: [0; 65536],
            spare: [0; 65536],
            out: [0; 65536],
            at: 0,
            left: 0,
        }
    }

    fn flush(&mut self)
        ensures { self.new.at ≡ 0 }
    {
        io::write_all(1, hex_lines::front(&self.out, self.at));
        self.at = 0;
    }

    // Behind what is there lies room for the longest record: where it does not, what is there goes out.
    fn make_room(&mut self)
        ensures { self.new.at + 60005 ≤ 65536 }
    {
        if self.out.len() - LONGEST < self.at {
            self.flush();
        }
    }

    fn leave_out(&mut self) {
        self.left = self.left.saturating_add(1);
    }

    // Writes the record of the line that was read, behind those that are there.
    fn record(&mut self) {
        let line = self.input.line(&self.text, &mut self.spare);
        if line.slot != 0 {
            return self.leave_out();
        }
        self.make_room();
        let octets = hex_lines::front(&self.octets, line.octets.unwrap_or(0));
        match journal_lines::write(line, octets, &mut self.out[self.at..]) {
            Ok(n) => self.at = self.at.saturating_add(n),
            Err(Refusal::WrongLength) => self.leave_out(),
            Err(refusal) => tell_refusal(refusal),
        }
    }

    // Takes in what was read: pieces of lines, each of which ends a line or goes on with the next read.
    fn take(&mut self, read: &[u8]) {
        for piece in read.split_inclusive(|c| *c == b'\n') {
            match piece.strip_suffix(b"\n") {
                Some(end) => {
                    self.input = self.input.with(end, &mut self.text, &mut self.octets);
                    self.record();
                    self.input = Input::new();
                }
                None => self.input = self.input.with(piece, &mut self.text, &mut self.octets),
            }
        }
    }

    // What follows the last line end is a line too.
    fn finish(&mut self) {
        if self.input.held != 0 {
            self.record();
            self.flush();
        }
        self.tell_left();
    }

    fn tell_left(&self) {
        if self.left != 0 {
            io::write_all(2, b"left out ");
            io::print_decimal(2, self.left);
            io::write_all(2, b"\n");
        }
    }
}

// kept: as in example: neither program stands on the other, and a crate for these lines would be longer than they are.
fn tell_refusal(refusal: Refusal) {
    io::write_all(2, b"no ");
    io::print_decimal(2, u64::from(refusal.number()));
    io::write_all(2, b"\n");
}

fn main(rt: HostRuntime) {
    let mut stdin = rt.stdin();
    let mut input = [0; 65536];
    let mut writer = Writer::new();
    // no run uses the turns up
    for _ in 0..u64::MAX {
        match stdin.read(&mut input) {
            Ok(0) => return writer.finish(),
            Ok(n) => {
                writer.take(hex_lines::front(&input, n));
                writer.flush();
            }
            // if a read failed, what follows the last line end is not known to be a line
            Err(_) => {
                io::write_all(2, b"journal_write: a read failed\n");
                return writer.tell_left();
            }
        }
    }
}
