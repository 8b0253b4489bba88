// The calls over an EPS context.
ghost use Rattle.std.specs.Prelude.{◌≡◌, [], Ok};
ghost use Rattle.nas_eps.specs.OpenAnswer.{told_open};
ghost use Rattle.nas_eps.specs.Leaves.{leaves, open_values};
ghost use Rattle.nas_c.specs.EpsNumbers.{shown_open, new_numbers, restore_numbers, reselect_numbers, window_numbers, next_count_number, seal_numbers, request_numbers, open_numbers};

use crate::answers::{Shows, no_such_way};
use crate::{EpsLeft, Shown, direction_of};
use nas_eps::{Context, Opened};

// The header type that stands for a SERVICE REQUEST.
const REQUEST: u8 = 12;

// A SERVICE REQUEST is shown with header type 12, and its identifier as the octet.
impl Shows for Opened {
    ghost shows = { λ o. shown_open (open_values (told_open (Ok o))) };

    fn show(self) -> Shown {
        match self {
            Opened::Message(message) => message.show(),
            Opened::ServiceRequest {
                count,
                distance,
                identifier,
            } => Shown {
                header_type: REQUEST,
                octet: identifier,
                count,
                distance,
                ..Shown::default()
            },
        }
    }
}

#[tactic(auto, unfolding(crate::specs::EpsNumbers::new_numbers), using(crate::proofs::Answered::eps_change))]
#[unsafe(no_mangle)]
pub extern "C" fn saihdelu_eps_new(
    integrity: u8,
    ciphering: u8,
    integrity_key: &[u8; 16],
    ciphering_key: &[u8; 16],
) -> EpsLeft
    ensures { leaves result.answer result.context [] ≡ new_numbers integrity ciphering integrity_key.now ciphering_key.now }
{
    EpsLeft::from(Context::new(integrity, ciphering, *integrity_key, *ciphering_key))
}

#[tactic(auto, unfolding(crate::specs::EpsNumbers::restore_numbers), using(crate::proofs::Answered::eps_change))]
#[unsafe(no_mangle)]
pub extern "C" fn saihdelu_eps_restore(
    integrity: u8,
    ciphering: u8,
    integrity_key: &[u8; 16],
    ciphering_key: &[u8; 16],
    next_uplink: u32,
    next_downlink: u32,
) -> EpsLeft
    ensures { leaves result.answer result.context [] ≡ restore_numbers integrity ciphering integrity_key.now ciphering_key.now next_uplink next_downlink }
{
    EpsLeft::from(Context::restore(
        integrity,
        ciphering,
        *integrity_key,
        *ciphering_key,
        next_uplink,
        next_downlink,
    ))
}

#[tactic(auto, unfolding(crate::specs::EpsNumbers::reselect_numbers), using(crate::proofs::Answered::eps_change))]
#[unsafe(no_mangle)]
pub extern "C" fn saihdelu_eps_reselect(
    context: Context,
    integrity: u8,
    ciphering: u8,
    integrity_key: &[u8; 16],
    ciphering_key: &[u8; 16],
) -> EpsLeft
    ensures { leaves result.answer result.context [] ≡ reselect_numbers context integrity ciphering integrity_key.now ciphering_key.now }
{
    EpsLeft::from(context.reselect(integrity, ciphering, *integrity_key, *ciphering_key))
}

#[tactic(auto, unfolding(crate::specs::EpsNumbers::window_numbers), using(crate::proofs::Answered::eps_change))]
#[unsafe(no_mangle)]
pub extern "C" fn saihdelu_eps_set_window(context: Context, size: u8) -> EpsLeft
    ensures { leaves result.answer result.context [] ≡ window_numbers context size }
{
    EpsLeft::from(context.set_window(size))
}

#[unsafe(no_mangle)]
pub extern "C" fn saihdelu_eps_seal(
    context: Context,
    header_type: u8,
    direction: u8,
    inner: &[u8],
    out: &mut [u8],
) -> EpsLeft
    ensures { leaves result.answer result.context out.new ≡ seal_numbers context header_type direction inner.now out.old }
{
    let Some(d) = direction_of(direction) else {
        return EpsLeft::from(no_such_way(context));
    };
    EpsLeft::from(context.seal(header_type, d, inner, out))
}

#[tactic(auto, unfolding(crate::specs::EpsNumbers::request_numbers), using(crate::proofs::Answered::eps_use))]
#[unsafe(no_mangle)]
pub extern "C" fn saihdelu_eps_service_request(
    context: Context,
    identifier: u8,
    out: &mut [u8],
) -> EpsLeft
    ensures { leaves result.answer result.context out.new ≡ request_numbers context identifier out.old }
{
    EpsLeft::from(context.service_request(identifier, out))
}

#[unsafe(no_mangle)]
pub extern "C" fn saihdelu_eps_open(
    context: Context,
    direction: u8,
    message: &[u8],
    out: &mut [u8],
) -> EpsLeft
    ensures { leaves result.answer result.context out.new ≡ open_numbers context direction message.now out.old }
{
    let Some(d) = direction_of(direction) else {
        return EpsLeft::from(no_such_way(context));
    };
    EpsLeft::from(context.open(d, message, out))
}

#[unsafe(no_mangle)]
pub extern "C" fn saihdelu_eps_next_count(context: Context, direction: u8) -> u32
    ensures { result ≡ next_count_number context direction }
{
    let Some(d) = direction_of(direction) else {
        return crate::NO_COUNT;
    };
    context.next_count(d)
}

#[unsafe(no_mangle)]
pub extern "C" fn saihdelu_eps_window(context: Context) -> u8
    ensures { result ≡ context.core.size }
{
    context.window()
}

#[unsafe(no_mangle)]
pub extern "C" fn saihdelu_eps_integrity(context: Context) -> u8
    ensures { result ≡ context.core.integrity }
{
    context.integrity()
}

#[unsafe(no_mangle)]
pub extern "C" fn saihdelu_eps_ciphering(context: Context) -> u8
    ensures { result ≡ context.core.ciphering }
{
    context.ciphering()
}
