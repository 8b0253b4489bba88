// The calls for C and for Rust: directions and connections as numbers, every answer as one struct, contexts by value or changed where they lie. Each contract
// is one equality, for every input, with the definition of the call that it covers: nothing is decided here but whether there is such a direction and
// connection.
#![tactic(auto)]

ghost use Rattle.std.specs.Prelude.{◌≡◌, Some, None, cond};
ghost use Rattle.nas_c.specs.Numbers.{no_direction, no_connection, no_way, direction_of, connection_of};

mod answers;
mod changes;
mod containers;
mod eps;
mod journals;
mod opens;
mod seals;

use nas_5gs::{Connection, Context, Direction};

// An answer's values: `number` is 0 for a success, else the refusal; what an answer has no value for is 0.
#[repr(C)]
#[derive(Clone, Copy, Default)]
pub struct Shown {
    pub number: u8,
    pub carried: u8,
    pub header_type: u8,
    pub octet: u8,
    pub connection: u8,
    pub count: u32,
    pub distance: u32,
    pub wrote: usize,
    pub second: usize,
}

// kept: `Left` and `EpsLeft` are one struct but for the context : no exported function may hand a generic struct to C.
#[repr(C)]
#[derive(Clone, Copy)]
pub struct Left {
    pub answer: Shown,
    pub context: Context,
}

#[repr(C)]
#[derive(Clone, Copy)]
pub struct EpsLeft {
    pub answer: Shown,
    pub context: nas_eps::Context,
}

// kept: directions, connections, kinds and refusals are numbers in what is exported, and each call of both contexts has a name of its own: the C interface.
// Answered for the next COUNT of a direction or connection that is none: it is no next COUNT.
const NO_COUNT: u32 = 4294967295;

#[tactic(auto, unfolding(crate::specs::Numbers::no_direction, crate::specs::Numbers::direction_of))]
fn direction_of(n: u8) -> Option<Direction>
    ensures { result ≡ cond (no_direction n) None (Some (direction_of n)) }
{
    match n {
        0 => Some(Direction::Uplink),
        1 => Some(Direction::Downlink),
        _ => None,
    }
}

#[tactic(auto, unfolding(crate::specs::Numbers::no_connection, crate::specs::Numbers::connection_of))]
fn connection_of(n: u8) -> Option<Connection>
    ensures { result ≡ cond (no_connection n) None (Some (connection_of n)) }
{
    match n {
        1 => Some(Connection::ThreeGpp),
        2 => Some(Connection::Non3Gpp),
        _ => None,
    }
}

#[tactic(auto, unfolding(crate::specs::Numbers::no_way))]
fn way_of(direction: u8, connection: u8) -> Option<(Direction, Connection)>
    ensures { result ≡ cond (no_way direction connection) None (Some (direction_of direction, connection_of connection)) }
{
    Some((direction_of(direction)?, connection_of(connection)?))
}

// The octets of a context as C lays it out, for a caller to compare with its own declaration: no proof knows them.
#[unsafe(no_mangle)]
pub extern "C" fn saihdelu_context_size() -> usize
    ensures { result ≡ 520 }
{
    520
}

#[unsafe(no_mangle)]
pub extern "C" fn saihdelu_eps_context_size() -> usize
    ensures { result ≡ 488 }
{
    488
}
