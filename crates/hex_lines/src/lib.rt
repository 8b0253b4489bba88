// Words, numbers and octets of hex lines, read from and written to lent slices. No line, however long or odd, is read or written out of bounds.
#![tactic(auto)]

mod print;
mod read;

pub use print::{put_decimal, put_number, put_octets, put_text};
pub use read::{after, decode, digit, find, front, is_digit, value};

// Why a text is not taken as octets: it is none, or is too many of them for the output.
#[derive(Clone, Copy, Debug, PartialEq, Eq)]
pub enum NotDecoded {
    Bad,
    Long,
}
