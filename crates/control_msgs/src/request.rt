//! The Request-TW-Session as a server reads it (RFC 5357, section 3.5; RFC 6038, section 3.2).

ghost use Rattle.std.specs.Prelude.{◌≡◌, ◌<◌, ◌+◌, ◌≤◌, length};
ghost use Rattle.std.specs.Int.{w16, w32, from_be_bytes};
ghost use Rattle.octet_format.specs.Octets.{field};
ghost use Rattle.control_msgs.specs.Reads.{are_zeros, address_read, fault_at, first_fault, request_of, request_read};

use crate::codes::{REQUEST, REQUEST_LEN};
use crate::types::{Field, MsgFault, Request};
use octet_format::{field2, field4, field8, field16};
use refl_types::Address;

/// The places of the fields that are read or written, besides the command at 0.
pub(crate) const IPVN: usize = 1;

const CONF_SENDER: usize = 2;

const CONF_RECEIVER: usize = 3;

const SLOTS: usize = 4;

pub(crate) const SENDER_PORT: usize = 12;

pub(crate) const RECEIVER_PORT: usize = 14;

pub(crate) const SENDER_ADDRESS: usize = 16;

pub(crate) const RECEIVER_ADDRESS: usize = 32;

pub(crate) const TIMEOUT: usize = 76;

const TYPE_P: usize = 84;

pub(crate) const OCTETS: usize = 88;

pub(crate) const REFLECT: usize = 90;

fn u16_in(octets: &[u8], at: usize) -> u16
    requires { at + 2 ≤ length octets.now }
    ensures { result ≡ from_be_bytes w16 (field at 2 octets.now) }
{
    u16::from_be_bytes(field2(octets, at))
}

fn u32_in(octets: &[u8], at: usize) -> u32
    requires { at + 4 ≤ length octets.now }
    ensures { result ≡ from_be_bytes w32 (field at 4 octets.now) }
{
    u32::from_be_bytes(field4(octets, at))
}

fn are_zeros(octets: &[u8]) -> bool
    ensures { result ≡ are_zeros octets.now }
{
    octets.iter().all(|b| *b == 0)
}

/// The address in a field. Zeros are none.
fn address_in(v6: bool, octets: [u8; 16]) -> Option<Address>
    ensures { result ≡ address_read v6 octets }
{
    if v6 {
        return if are_zeros(&octets) {
            None
        } else {
            Some(Address::V6(octets))
        };
    }
    let octets = field4(&octets, 0);
    if are_zeros(&octets) {
        None
    } else {
        Some(Address::V4(octets))
    }
}

fn refuse(at: usize, field: Field) -> Option<MsgFault>
    requires { at < 112 }
    ensures { result ≡ fault_at at field }
{
    Some(MsgFault {
        octet: at as u16,
        field,
    })
}

/// The first field that is refused, in the order of `Field`.
#[tactic(auto, unfolding(crate::specs::Reads::first_fault))]
fn first_fault(octets: &[u8; REQUEST_LEN]) -> Option<MsgFault>
    ensures { result ≡ first_fault octets.now }
{
    if octets[0] != REQUEST {
        return refuse(0, Field::Command);
    }
    let version = octets[IPVN] % 16;
    if version != 4 && version != 6 {
        return refuse(IPVN, Field::Ipvn);
    }
    if octets[CONF_SENDER] != 0 || octets[CONF_RECEIVER] != 0 {
        return refuse(CONF_SENDER, Field::Conf);
    }
    if u32_in(octets, SLOTS) != 0 {
        return refuse(SLOTS, Field::Slots);
    }
    if u32_in(octets, TYPE_P) != 0 {
        return refuse(TYPE_P, Field::TypeP);
    }
    if u16_in(octets, SENDER_PORT) == 0 {
        return refuse(SENDER_PORT, Field::SenderPort);
    }
    None
}

/// What a message asks for. The fields that are tested may have any values.
#[tactic(auto, unfolding(crate::specs::Reads::request_of))]
fn request_of(octets: &[u8; REQUEST_LEN]) -> Request
    ensures { result ≡ request_of octets.now }
{
    let v6 = octets[IPVN] % 16 == 6;
    Request {
        sender: address_in(v6, field16(octets, SENDER_ADDRESS)),
        receiver: address_in(v6, field16(octets, RECEIVER_ADDRESS)),
        v6,
        sender_port: u16_in(octets, SENDER_PORT),
        receiver_port: u16_in(octets, RECEIVER_PORT),
        timeout: field8(octets, TIMEOUT),
        octets: field2(octets, OCTETS),
        reflect: u16_in(octets, REFLECT),
    }
}

/// Reads a session request. The fields are tested in the order of `Field`: the command number, the IP version 4 or
/// 6, both Conf fields 0, no schedule slots, Type-P 0, the sender's port other than 0. The first that fails is
/// answered, and the place of its first octet. An address of zeros is none.
#[tactic(auto, unfolding(crate::specs::Reads::request_read))]
pub fn read_request(octets: &[u8; REQUEST_LEN]) -> Result<Request, MsgFault>
    ensures { result ≡ request_read octets.now }
{
    match first_fault(octets) {
        Some(fault) => Err(fault),
        None => Ok(request_of(octets)),
    }
}

/// The octets that a request wants to have back, in its field Octets to be reflected (RFC 6038, section 3.2).
pub fn octets_to_reflect(octets: &[u8; REQUEST_LEN]) -> [u8; 2]
    ensures { result ≡ field 88 2 octets.now }
{
    field2(octets, OCTETS)
}
