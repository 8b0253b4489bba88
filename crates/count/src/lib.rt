// A record of COUNTs, as document 01's COUNT rule has it: what may come next, and what a use or a new window size makes of it.
#![tactic(auto)]

ghost use Rattle.std.specs.Prelude.{◌≡◌, ◌+◌, ◌-◌, ◌*◌, ◌%◌, ◌^◌, ◌≤◌, ◌<◌, min};
ghost use Rattle.count.specs.Rule.{exhausted, bit, distance, forward_of, late_of, distance_of, former_highest, use_forward, use_round, use_late, resize_of, refusal_of};

use refusals::Refusal;

// 2^24, the first number that is no COUNT: a next COUNT of this means that all are used.
pub const EXHAUSTED: u32 = 16777216;

// The next COUNT of one direction of one connection (EXHAUSTED: all are used), and the window bits: bit k is set when the COUNT k + 1 below the
// highest used one, next - 1, is used.
#[repr(C)]
#[derive(Clone, Copy, Debug, PartialEq, Eq)]
pub struct Record {
    pub next: u32,
    pub bits: u64,
}

// The COUNT that an opening takes a message as.
#[derive(Clone, Copy, Debug, PartialEq, Eq)]
pub enum Taken {
    Late(u32),
    Forward(u32),
}

// Why it takes a message as none.
#[derive(Clone, Copy, Debug, PartialEq, Eq)]
pub enum Missed {
    // refusal 6
    NoCandidate,
    // refusal 7: the code is wrong for every candidate
    WrongCode,
}

impl From<Missed> for Refusal {
    ghost from_gives = { λ missed refusal. refusal ≡ refusal_of missed };

    fn from(missed: Missed) -> Refusal {
        match missed {
            Missed::NoCandidate => Refusal::NoCount,
            Missed::WrongCode => Refusal::WrongCode,
        }
    }
}

// How far above a the least number lies that ends in b's k low bits.
fn distance_up(k: u8, a: u32, b: u32) -> u32
    requires { k ≤ 8 }
    ensures { (result ≡ distance k a b) × (result < 256) }
{
    b.wrapping_sub(a) % (1 << k)
}

// Bit k, clear past the last.
#[tactic(auto, unfolding(crate::specs::Rule::bit), using(crate::proofs::Words::none_past))]
fn bit_at(bits: u64, k: u32) -> u64
    ensures { result ≡ bit bits k }
{
    bits.checked_shr(k).unwrap_or(0) % 2
}

// The bits so many places up, those past the last dropped.
#[tactic(auto, using(crate::proofs::Words::moved_out))]
fn moved_up(bits: u64, places: u32) -> u64
    ensures { result ≡ bits * 2 ^ places % 2 ^ 64 }
{
    bits.checked_shl(places).unwrap_or(0)
}

// The size low bits set.
#[tactic(auto, using(crate::proofs::Words::ones_down))]
fn low_bits(size: u8) -> u64
    requires { size ≤ 64 }
    ensures { result ≡ 2 ^ size - 1 }
{
    u64::MAX.checked_shr(64 - size as u32).unwrap_or(0)
}

// The bit of the former highest COUNT after m places up, if there was one.
#[tactic(auto, unfolding(crate::specs::Rule::former_highest))]
fn former_highest(next: u32, m: u32) -> u64
    requires { 0 < m }
    ensures { result ≡ former_highest next m % 2 ^ 64 }
{
    if next == 0 { 0 } else { moved_up(1, m - 1) }
}

impl Record {
    // No COUNT below the next one is open late.
    pub fn fresh(next: u32) -> Record
        ensures { result ≡ record { next = next; bits = 0 } }
    {
        Record { next, bits: 0 }
    }

    // The least COUNT from next on whose k low bits are those of s; with null integrity (wraps) it goes round.
    #[tactic(auto, unfolding(crate::specs::Rule::forward_of))]
    pub fn forward(self, k: u8, wraps: bool, s: u8) -> Option<u32>
        requires { k ≤ 8 }
        ensures { result ≡ forward_of k wraps self s }
    {
        if EXHAUSTED <= self.next {
            return None;
        }
        let c = self.next + distance_up(k, self.next, s as u32);
        (wraps || c < EXHAUSTED).then_some(c % EXHAUSTED)
    }

    // The COUNT below the highest whose last octet is s, if it is open late.
    #[tactic(auto, unfolding(crate::specs::Rule::late_of, crate::specs::Rule::open_at))]
    pub fn late(self, size: u8, s: u8) -> Option<u32>
        ensures { result ≡ late_of 8 size self s }
    {
        let h = self.next.checked_sub(1)?;
        let d = distance_up(8, s as u32, h);
        if 1 <= d && d <= size as u32 && d <= h && bit_at(self.bits, d - 1) == 0 {
            Some(h - d)
        } else {
            None
        }
    }

    // How far a forward c lies above next, or a late one below the highest used.
    #[tactic(auto, unfolding(crate::specs::Rule::distance_of))]
    pub fn distance_to(self, c: u32) -> u32
        requires { self.next ≤ c + exhausted }
        ensures { result ≡ distance_of self c }
    {
        let next = self.next;
        if next <= c {
            return c - next;
        }
        let below = next - 1 - c;
        if below <= 64 {
            below
        } else {
            EXHAUSTED - (next - c)
        }
    }

    // Forward use of c.
    #[tactic(auto, unfolding(crate::specs::Rule::use_forward), using(crate::proofs::Words::or_moved, crate::proofs::Bits::former_lt))]
    pub fn advance(self, size: u8, c: u32) -> Record
        requires { (self.next ≤ c) × (c < exhausted) × (size ≤ 64) }
        ensures { result ≡ use_forward size self c }
    {
        let m = c + 1 - self.next;
        let kept = moved_up(self.bits, m);
        let highest = former_highest(self.next, m);
        Record {
            next: c + 1,
            bits: (kept | highest) & low_bits(size),
        }
    }

    // Use of c under null integrity.
    #[tactic(auto, unfolding(crate::specs::Rule::use_round))]
    pub fn go_round(self, c: u32) -> Record
        requires { c < exhausted }
        ensures { result ≡ use_round self c }
    {
        Record {
            next: (c + 1) % EXHAUSTED,
            ..self
        }
    }

    // Late use of c.
    #[tactic(auto, unfolding(crate::specs::Rule::use_late))]
    pub fn use_late(self, c: u32) -> Record
        requires { (c + 1 < self.next) × (self.next ≤ c + 65) }
        ensures { result ≡ use_late self c }
    {
        let k = self.next - (c + 2);
        Record {
            bits: self.bits | (1 << k),
            ..self
        }
    }

    // The window's size was old and becomes new.
    #[tactic(auto, unfolding(crate::specs::Rule::resize_of), using(crate::proofs::Words::ones_le, crate::proofs::Words::or_sized))]
    pub fn resize(self, old: u8, new: u8) -> Record
        requires { (old ≤ 64) × (new ≤ 64) }
        ensures { result ≡ resize_of old new self }
    {
        let known = low_bits(old.min(new));
        Record {
            bits: (self.bits & known) | (low_bits(new) - known),
            ..self
        }
    }
}
