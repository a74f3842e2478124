//! What the file says to the desk.

ghost use Rattle.std.specs.Prelude.{◌<◌, ◌^◌, All};

use refl_types::{Config, LocalAddr};
use std::marker::Model;

/// The locals, and the configuration of the sessions that control connections ask for. Contracts see it as a `Setting`.
#[derive(Drop)]
pub struct Setting {
    locals: Vec<LocalAddr>,
    twamp: Option<Config>,
}

impl Model for Setting {
    ghost use Rattle.std.specs.Prelude.{◌≤◌, vec_len};
    ghost use Rattle.control_desk.specs.State.{Setting};

    ghost Value = { Setting };

    ghost view = { λ s. record { locals = s.locals.items; twamp = s.twamp } };

    ghost invariant = { λ s. vec_len s.locals ≤ 16 };
}

/// What the type of a local address says of its port.
fn law_port(local: LocalAddr)
    ensures { local.port < 2 ^ 16 }
{}

/// The same of all of these, which it reads.
fn law_all_ports(locals: &[LocalAddr])
    ensures { All (λ l. l.port < 2 ^ 16) locals.now }
{
    for local in locals {
        law_port(*local);
    }
}

impl Setting {
    ghost use Rattle.std.specs.Prelude.{◌≡◌, ◌≤◌, vec_len, length};
    ghost use Rattle.control_desk.specs.State.{Setting};

    pub fn new(locals: Vec<LocalAddr>, twamp: Option<Config>) -> Setting
        requires { vec_len locals ≤ 16 }
        ensures { result ≡ record { locals = locals.items; twamp = twamp } }
    {
        Setting { locals, twamp }
    }

    pub fn locals(&self) -> &[LocalAddr]
        ensures value { result.now ≡ self.now.locals }
        ensures few { length result.now ≤ 16 }
    {
        &self.locals
    }

    pub fn twamp(&self) -> &Option<Config>
        ensures { result.now ≡ self.now.twamp }
    {
        &self.twamp
    }

    /// The ports of the locals have 16 bits, which their value doesn't tell.
    pub fn law_ports(&self)
        ensures { All (λ l. l.port < 2 ^ 16) self.now.locals }
    {
        law_all_ports(&self.locals);
    }
}
