//! The messages of a TWAMP-Control client, and those that answer it (RFC 5357, section 3; RFC 4656, section 3). They are
//! written out from the tables of the standards.

ghost use Rattle.std.specs.Prelude.{◌<◌};

/// Set-Up-Response, with the three bits of Mode that are served.
pub fn set_up() -> [u8; 164] {
    let mut octets = [0; 164];
    octets[3] = 97;
    octets
}

/// Request-TW-Session over IPv4, from a port of 6000 and more to port 5001, with a Timeout of two seconds.
pub fn request(more: u8) -> [u8; 112]
    requires { more < 16 }
{
    let mut octets = [0; 112];
    octets[0] = 5;
    octets[1] = 4;
    octets[12] = 0x17;
    octets[13] = 0x70 + more;
    octets[14] = 0x13;
    octets[15] = 0x89;
    octets[79] = 2;
    octets
}

/// Start-Sessions.
pub fn start() -> [u8; 32] {
    let mut octets = [0; 32];
    octets[0] = 2;
    octets
}

/// Stop-Sessions with this Number of Sessions.
pub fn stop(number: u8) -> [u8; 32] {
    let mut octets = [0; 32];
    octets[0] = 3;
    octets[7] = number;
    octets
}

/// Server Greeting: Modes 97 and Count 1024.
pub fn greeting() -> [u8; 64] {
    let mut octets = [0; 64];
    octets[15] = 0x61;
    octets[50] = 4;
    octets
}

/// Server-Start with Accept 0, of a desk whose first event came at moment 0.
pub fn server_start() -> [u8; 48] {
    let mut octets = [0; 48];
    octets[32] = 0x83;
    octets[33] = 0xAA;
    octets[34] = 0x7E;
    octets[35] = 0x80;
    octets
}

/// Accept-Session with Accept 0 and Port 862, of the first session of this slot, which was asked for at second 5.
pub fn acceptance(slot: u8) -> [u8; 48] {
    let mut octets = [0; 48];
    octets[2] = 0x03;
    octets[3] = 0x5E;
    octets[7] = slot;
    octets[11] = 1;
    octets[15] = 1;
    octets[16] = 0x2A;
    octets[17] = 0x05;
    octets[18] = 0xF2;
    octets
}

/// Accept-Session with Accept 5.
pub fn refusal() -> [u8; 48] {
    let mut octets = [0; 48];
    octets[0] = 5;
    octets
}

/// Start-Ack with Accept 0.
pub const START_ACK: [u8; 32] = [0; 32];
