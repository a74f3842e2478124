//! The book of rows.

ghost use Rattle.std.specs.Prelude.{◌≡◌, ◌+◌, ◌<◌, ◌++◌, ◌∷◌, [], length, IfOk, IsTrue, IsFalse};
ghost use Rattle.config_rows.specs.Rows.{IsSought, IsNext, AreRows};
ghost use Rattle.config_rows.specs.Index.{hash_of, bucket_of};

use crate::words::to_words;
use refl_types::{Config, Memory};
use std::alloc::{AllocError, Global};
use std::hash::{FoldHasher, Hasher};
use std::marker::Model;

/// What a search in the book finds.
#[derive(Clone, Copy, Debug, PartialEq, Eq)]
pub enum Sought {
    /// The row of an equal configuration.
    Known(u32),
    /// The next row, which is free.
    Next(u32),
    /// All rows are used, and none is equal.
    RowsFull,
}

fn is_same(a: &Config, b: &Config) -> bool
    ensures same { IsTrue result → a.now ≡ b.now }
    ensures other { IsFalse result → ¬ (a.now ≡ b.now) }
{
    a == b
}

fn hash(config: &Config) -> u64
    ensures { result ≡ hash_of config.now }
{
    let words = to_words(config);
    let mut hasher = FoldHasher::default();
    for word in &words {
        hasher.write_u64(*word);
    }
    hasher.finish()
}

/// The bucket of a configuration, among as many.
fn bucket_of(config: &Config, buckets: usize) -> usize
    requires { 0 < buckets }
    ensures value { result ≡ bucket_of buckets config.now }
    ensures inside { result < buckets }
{
    (hash(config) % buckets as u64) as usize
}

/// The configurations that have rows. Contracts see it as their list, row 1 first, and how many rows there may be.
/// A search looks at the rows of one bucket alone, the latest first.
#[derive(Drop)]
pub struct RowBook {
    configs: Vec<Config>,
    limit: u32,
    /// The latest row of each bucket, or 0.
    latest: Vec<u32>,
    /// For each row the one before it in its bucket, or 0.
    previous: Vec<u32>,
}

impl Model for RowBook {
    ghost use Rattle.std.specs.Prelude.{◌≤◌, vec_capacity};
    ghost use Rattle.config_rows.specs.Rows.{Rows, AreRows};
    ghost use Rattle.config_rows.specs.Index.{IsIndex};

    ghost Value = { Rows };

    ghost view = { λ b. record { configs = b.configs.items; limit = b.limit } };

    ghost invariant = { λ b. record {
      rows : AreRows (record { configs = b.configs.items; limit = b.limit });
      room : b.limit ≤ vec_capacity b.configs;
      index : IsIndex (record { configs = b.configs.items; limit = b.limit }) b.latest.items b.previous.items;
      links : b.limit ≤ vec_capacity b.previous;
    } };
}

impl RowBook {
    /// A book without a row, with room for as many rows. Only want of memory refuses it.
    pub fn make(alloc: Global, rows: u32) -> Result<RowBook, Memory>
        ensures empty { IfOk result (λ book. book ≡ record { configs = []; limit = rows }) }
    {
        RowBook::with_room(alloc, rows).map_err(|_| Memory)
    }

    fn with_room(alloc: Global, rows: u32) -> Result<RowBook, AllocError>
        ensures empty { IfOk result (λ book. book ≡ record { configs = []; limit = rows }) }
    {
        let configs = Vec::with_capacity(alloc, rows as usize)?;
        let previous = Vec::with_capacity(alloc, rows as usize)?;
        let latest = vec![in alloc; 0; rows.max(1) as usize]?;
        Ok(RowBook {
            configs,
            limit: rows,
            latest,
            previous,
        })
    }

    /// The row of an equal configuration, or else the next row, where there is one.
    pub fn seek(&self, config: &Config) -> Sought
        ensures sought { IsSought self.now config.now result }
        ensures rows { AreRows self.now }
    {
        let mut row = self.latest[bucket_of(config, self.latest.len())];
        while row > 0 {
            if is_same(&self.configs[row as usize - 1], config) {
                return Sought::Known(row);
            }
            row = self.previous[row as usize - 1];
        }
        let next = self.configs.len() as u32;
        if next < self.limit {
            Sought::Next(next + 1)
        } else {
            Sought::RowsFull
        }
    }

    /// Gives a configuration that has no row the next one.
    pub fn add(&mut self, config: &Config) -> u32
        requires next { IsNext self.old config.now (length self.old.configs + 1) }
        ensures row { IsNext self.old config.now result }
        ensures added { self.new ≡ record { configs = self.old.configs ++ config.now ∷ []; limit = self.old.limit } }
    {
        let bucket = bucket_of(config, self.latest.len());
        match self.previous.push(self.latest[bucket]) {
            Ok(()) => {}
            Err(_) => unreachable!(),
        }
        match self.configs.push(*config) {
            Ok(()) => {}
            Err(_) => unreachable!(),
        }
        let row = self.configs.len() as u32;
        self.latest[bucket] = row;
        row
    }
}
