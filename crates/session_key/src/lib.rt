//! Session keys: which datagrams are a session's, keys in words of 64 bits, and where the search for a key begins.
#![tactic(auto)]

mod laws;
mod matching;
mod placing;
mod words;

pub use laws::{law_excludes, law_words};
pub use matching::{Query, auth_ssid, matches};
pub use placing::place;
pub use words::{first_words, from_key_words, key_words};

#[cfg(test)]
mod tests {
    use super::*;
    use refl_types::{Address, Endpoint, Extra, Key, Meta, Mode};

    const PEER: Endpoint = Endpoint {
        address: Address::V4([192, 0, 2, 1]),
        port: 5000,
    };

    const OTHER: Endpoint = Endpoint {
        address: Address::V4([192, 0, 2, 1]),
        port: 5001,
    };

    const NO_EXTRA: Extra = Extra {
        symmetrical: false,
        reflect: 0,
    };

    fn key(mode: Mode, ssid: u16) -> Key {
        Key {
            local: 0,
            peer: PEER,
            mode,
            ssid,
        }
    }

    #[test]
    fn matches_by_both_ends_and_the_ssid_of_the_mode(rt: HostRuntime) {
        let mut octets = [0; 28];
        octets[15] = 7;
        octets[27] = 8;
        for (local, peer, len, mode, ssid, want) in [
            (0, PEER, 28, Mode::Plain, 7, true),
            (0, PEER, 28, Mode::Plain, 8, false),
            (0, PEER, 16, Mode::Plain, 7, true),
            (0, PEER, 15, Mode::Plain, 7, false),
            (0, PEER, 28, Mode::Auth, 8, true),
            (0, PEER, 28, Mode::Auth, 7, false),
            (0, PEER, 27, Mode::Auth, 8, false),
            (0, PEER, 14, Mode::Twamp, 0, true),
            (1, PEER, 28, Mode::Plain, 7, false),
            (0, OTHER, 28, Mode::Plain, 7, false),
        ] {
            let front = octets.get(..len).expect(&rt, "octets");
            let meta = Meta {
                local,
                peer,
                len,
                ttl: None,
                arrival: 0,
            };
            assert_eq!(rt; matches(&meta, front, &key(mode, ssid)), want, "{len}");
        }
    }

    #[test]
    fn places_sessions_by_their_ends(rt: HostRuntime) {
        for (port, want) in [(5000, 5), (5001, 2), (5002, 15)] {
            let peer = Endpoint { port, ..PEER };
            assert_eq!(rt; place(0, &peer, 16), want, "{port}");
        }
    }

    #[test]
    fn spells_keys_in_four_words(rt: HostRuntime) {
        let mut v6 = [0; 16];
        v6[..4].copy_from_slice(&[0x20, 0x01, 0x0D, 0xB8]);
        v6[15] = 1;
        let twamp = Key {
            local: 3,
            peer: Endpoint {
                address: Address::V6(v6),
                port: 862,
            },
            mode: Mode::Twamp,
            ssid: 0,
        };
        let agreed = Extra {
            symmetrical: true,
            reflect: 4,
        };
        for (key, extra, want) in [
            (
                key(Mode::Plain, 7),
                NO_EXTRA,
                [0xC000_0201_0000_0000, 0, 0x1388_0007_0000_0000, 0],
            ),
            (
                key(Mode::Auth, 7),
                NO_EXTRA,
                [0xC000_0201_0000_0000, 0, 0x1388_0007_0000_0002, 0],
            ),
            (
                twamp,
                agreed,
                [0x2001_0DB8_0000_0000, 1, 0x035E_0000_0003_0005, 9],
            ),
        ] {
            let words = key_words(&key, &extra);
            assert_eq!(rt; words, want);
            if key.is_sound(&extra) {
                assert_eq!(rt; from_key_words(&words), (key, extra));
            }
        }
    }
}
