//! Configurations in words of 64 bits, and the book of the rows that they stand in.
#![tactic(auto)]

mod book;
mod laws;
mod words;

pub use book::{RowBook, Sought};
pub use laws::law_words;
pub use words::{from_words, to_words};

#[cfg(test)]
mod tests {
    use super::*;
    use refl_types::{Clock, Config, ConfigParts};
    use std::test::Fail;

    fn parts(multiplier: u8) -> ConfigParts {
        ConfigParts {
            stateful: true,
            clock: Clock::Ntp,
            offset: 0,
            synced: false,
            scale: 0,
            multiplier,
            info: [0; 4],
            tlvs: 0,
            key: None,
        }
    }

    #[test]
    fn spells_configurations_in_twelve_words(rt: HostRuntime) -> Result<(), Fail> {
        let keyed = ConfigParts {
            stateful: false,
            clock: Clock::Ptp,
            offset: 37,
            synced: true,
            scale: 5,
            multiplier: 6,
            info: [1, 2, 3, 4],
            tlvs: 40,
            key: Some([0x0B; 64]),
        };
        let block = 0x0B0B_0B0B_0B0B_0B0B;
        for (parts, want) in [
            (parts(1), [0x0100_0001, 0, 0, 0, 0, 0, 0, 0, 0, 0, 0, 0]),
            (
                keyed,
                [
                    0x0E25_0506,
                    0x0102_0304,
                    40,
                    0,
                    block,
                    block,
                    block,
                    block,
                    block,
                    block,
                    block,
                    block,
                ],
            ),
        ] {
            let config = Config::make(parts).expect(&rt, "a configuration");
            let words = to_words(&config);
            assert_eq!(rt; words, want);
            assert_eq!(rt; from_words(&words), config);
        }
        Ok(())
    }

    #[test]
    fn numbers_configurations_from_one_until_the_rows_are_full(
        rt: HostRuntime,
    ) -> Result<(), Fail> {
        let first = Config::make(parts(1)).expect(&rt, "a configuration");
        let second = Config::make(parts(2)).expect(&rt, "a configuration");
        let third = Config::make(parts(3)).expect(&rt, "a configuration");
        let mut book = RowBook::make(rt.alloc(), 2).expect(&rt, "memory");
        for (config, want) in [(first, 1), (second, 2)] {
            let sought = book.seek(&config);
            assert_eq!(rt; sought, Sought::Next(want));
            if let Sought::Next(_) = sought {
                assert_eq!(rt; book.add(&config), want);
            }
            assert_eq!(rt; book.seek(&config), Sought::Known(want));
        }
        assert_eq!(rt; book.seek(&third), Sought::RowsFull);
        assert_eq!(rt; book.seek(&first), Sought::Known(1));
        Ok(())
    }
}
