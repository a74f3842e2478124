//! Tests.

mod files;
mod runs;
