//! The messages that a client writes (RFC 5357, section 3; RFC 4656, section 3).

ghost use Rattle.std.specs.Prelude.{◌≡◌, Ok};
ghost use Rattle.control_msgs.specs.Layout.{address_field, ip_version, request_message, set_up, start_sessions, stop_sessions};
ghost use Rattle.control_msgs.specs.Reads.{IsWritable, request_read};

use crate::codes::{COMMAND_LEN, REQUEST, REQUEST_LEN, SET_UP_LEN, START, STOP};
use crate::request::{
    IPVN, OCTETS, RECEIVER_ADDRESS, RECEIVER_PORT, REFLECT, SENDER_ADDRESS, SENDER_PORT, TIMEOUT,
};
use crate::types::Request;
use octet_format::put;
use refl_types::Address;

/// Writes the Set-Up-Response (RFC 4656, section 3.1).
pub fn write_set_up(mode: u32, out: &mut [u8; SET_UP_LEN])
    ensures { out.new ≡ set_up mode }
{
    put(out, 0, &mode.to_be_bytes());
    put(out, 4, &[0; 80]);
    put(out, 84, &[0; 64]);
    put(out, 148, &[0; 16]);
}

/// Writes the Start-Sessions (RFC 5357, section 3.7).
pub fn write_start(out: &mut [u8; COMMAND_LEN])
    ensures { out.new ≡ start_sessions }
{
    put(out, 0, &[START]);
    put(out, 1, &[0; 15]);
    put(out, 16, &[0; 16]);
}

/// Writes the Stop-Sessions (RFC 5357, section 3.8).
pub fn write_stop(number: u32, out: &mut [u8; COMMAND_LEN])
    ensures { out.new ≡ stop_sessions number }
{
    put(out, 0, &[STOP]);
    put(out, 1, &[0]);
    put(out, 2, &[0; 2]);
    put(out, 4, &number.to_be_bytes());
    put(out, 8, &[0; 8]);
    put(out, 16, &[0; 16]);
}

fn address_field(address: &Option<Address>) -> [u8; 16]
    ensures { result ≡ address_field address.now }
{
    match address {
        None => [0; 16],
        Some(Address::V4(octets)) => {
            let mut field = [0; 16];
            put(&mut field, 0, octets);
            field
        }
        Some(Address::V6(octets)) => *octets,
    }
}

fn ip_version(v6: bool) -> u8
    ensures { result ≡ ip_version v6 }
{
    if v6 { 6 } else { 4 }
}

/// Writes the Request-TW-Session (RFC 5357, section 3.5; RFC 6038, section 3.2). All fields that `request` doesn't
/// have are zeros. A server reads the same request again.
pub fn write_request(request: &Request, out: &mut [u8; REQUEST_LEN])
    requires { IsWritable request.now }
    ensures fields { out.new ≡ request_message request.now }
    ensures read_again { request_read out.new ≡ Ok request.now }
{
    let Request {
        sender,
        receiver,
        v6,
        sender_port,
        receiver_port,
        timeout,
        octets,
        reflect,
    } = *request;
    put(out, 0, &[REQUEST]);
    put(out, IPVN, &[ip_version(v6)]);
    put(out, 2, &[0]);
    put(out, 3, &[0]);
    put(out, 4, &[0; 4]);
    put(out, 8, &[0; 4]);
    put(out, SENDER_PORT, &sender_port.to_be_bytes());
    put(out, RECEIVER_PORT, &receiver_port.to_be_bytes());
    put(out, SENDER_ADDRESS, &address_field(&sender));
    put(out, RECEIVER_ADDRESS, &address_field(&receiver));
    put(out, 48, &[0; 16]);
    put(out, 64, &[0; 4]);
    put(out, 68, &[0; 8]);
    put(out, TIMEOUT, &timeout);
    put(out, 84, &[0; 4]);
    put(out, OCTETS, &octets);
    put(out, REFLECT, &reflect.to_be_bytes());
    put(out, 92, &[0; 4]);
    put(out, 96, &[0; 16]);
}
