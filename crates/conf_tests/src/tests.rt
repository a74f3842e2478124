//! Tests.

mod checking;
mod reading;
