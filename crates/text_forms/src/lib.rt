//! Texts that operators write and read: numbers, endpoints and names. The formats are this project's own.
#![tactic(auto)]

mod endpoints;
mod laws;
mod names;
mod numbers;
mod writing;

pub use endpoints::{endpoint_from, prefix_from};
pub use laws::{law_endpoint_texts, law_number_texts, law_prefix_texts};
pub use names::Name;
pub use numbers::number_from;
pub use writing::{ENDPOINT_TEXT_MAX, write_endpoint};

#[cfg(test)]
mod tests {
    use super::*;
    use refl_types::{Address, Endpoint};
    use std::test::Fail;

    const DOCUMENTATION: Endpoint = Endpoint {
        address: Address::V4([192, 0, 2, 10]),
        port: 862,
    };

    const LONGEST: Endpoint = Endpoint {
        address: Address::V6([
            0x20, 0x01, 0x0d, 0xb8, 0, 0, 0, 0, 0, 0, 0, 0, 0xff, 0xee, 0xab, 0xcd,
        ]),
        port: 65535,
    };

    const LONGEST_TEXT: &[u8] = b"[2001:0db8:0000:0000:0000:0000:ffee:abcd]:65535";

    #[test]
    fn an_endpoint_is_read(rt: HostRuntime) {
        assert_eq!(rt; endpoint_from(b"192.0.2.10:862"), Some(DOCUMENTATION));
        assert_eq!(rt; endpoint_from(LONGEST_TEXT), Some(LONGEST));
    }

    #[test]
    fn another_text_is_no_endpoint(rt: HostRuntime) {
        let texts: [&[u8]; 12] = [
            b"",
            b"192.0.2.10",
            b"192.0.2.10:0",
            b"192.0.2.10:0862",
            b"192.0.2.10:65536",
            b"192.0.2.256:862",
            b"192.0.02.10:862",
            b"192.0.2:862",
            b"192.0.2.10:862 ",
            b"[2001:db8::1]:862",
            b"[2001:0DB8:0000:0000:0000:0000:0000:0001]:862",
            b"2001:0db8:0000:0000:0000:0000:0000:0001:862",
        ];
        for text in texts {
            assert_eq!(rt; endpoint_from(text), None);
        }
    }

    #[test]
    fn a_prefix_has_one_spelling(rt: HostRuntime) {
        assert_eq!(rt;
            prefix_from(b"198.51.100.0/24"),
            Some(([198, 51, 100, 0], 24))
        );
        assert_eq!(rt; prefix_from(b"0.0.0.0/0"), Some(([0; 4], 0)));
        assert_eq!(rt; prefix_from(b"255.255.255.255/32"), Some(([255; 4], 32)));
        let texts: [&[u8]; 9] = [
            b"",
            b"198.51.100.0",
            b"198.51.100.0/",
            b"198.51.100.0/33",
            b"198.51.100.0/08",
            b"198.51.100.0/24 ",
            b"01.2.3.4/8",
            b"1.2.3/8",
            b"198.51.100.0:24",
        ];
        for text in texts {
            assert_eq!(rt; prefix_from(text), None);
        }
    }

    #[test]
    fn an_endpoint_is_written(rt: HostRuntime) {
        let mut out = [0; ENDPOINT_TEXT_MAX];
        let len = write_endpoint(&DOCUMENTATION, &mut out);
        assert_eq!(rt; out.get(..len), Some(b"192.0.2.10:862".as_slice()));
        let len = write_endpoint(&LONGEST, &mut out);
        assert_eq!(rt; out.get(..len), Some(LONGEST_TEXT));
    }

    #[test]
    fn a_name_keeps_its_octets(rt: HostRuntime) -> Result<(), Fail> {
        let name = Name::make(b"edge_1-longest16").ok_or("a name")?;
        assert_eq!(rt; name.octets(), b"edge_1-longest16".as_slice());
        assert!(rt; Some(name) == Name::make(name.octets()));
        assert!(rt; Some(name) != Name::make(b"edge"));
        let none: [&[u8]; 4] = [b"", b"edge_1-longest_17", b"Edge", b"edge.1"];
        for octets in none {
            assert_eq!(rt; Name::make(octets), None);
        }
        Ok(())
    }

    #[test]
    fn a_number_has_one_spelling(rt: HostRuntime) {
        assert_eq!(rt;
            number_from(0, u64::MAX, b"18446744073709551615"),
            Some(u64::MAX)
        );
        assert_eq!(rt; number_from(0, 9, b"0"), Some(0));
        let none: [&[u8]; 6] = [b"", b"00", b"+1", b"-1", b"10", b"18446744073709551616"];
        for text in none {
            assert_eq!(rt; number_from(0, 9, text), None);
        }
    }
}
