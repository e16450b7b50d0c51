//! The count of the evaluations of conditions.

ghost use Rattle.std.specs.Prelude.{◌≡◌, ◌+◌, ◌<◌, ◌^◌};

use std::marker::Model;

/// How often conditions were evaluated at rows: the looks, and apart from them the rechecks.
#[derive(Debug, Drop)]
pub struct LookMeter {
    looks: u64,
    rechecks: u64,
}

impl Model for LookMeter {
    ghost use Rattle.om_value.specs.Looks.{LookCounts};

    ghost Value = { LookCounts };

    ghost view = { λ meter. record { looks = meter.looks; rechecks = meter.rechecks } };
}

impl LookMeter {
    /// No look and no recheck.
    pub fn new() -> LookMeter
        ensures { result ≡ record { looks = 0; rechecks = 0 } }
    {
        LookMeter {
            looks: 0,
            rechecks: 0,
        }
    }

    /// The number of looks.
    pub fn looks(&self) -> u64
        ensures { result ≡ self.now.looks }
    {
        self.looks
    }

    /// The number of rechecks.
    pub fn rechecks(&self) -> u64
        ensures { result ≡ self.now.rechecks }
    {
        self.rechecks
    }

    pub(crate) fn add_look(&mut self)
        requires { self.old.looks + 1 < 2 ^ 64 }
        ensures { self.new ≡ record self.old { looks = self.old.looks + 1 } }
    {
        self.looks += 1;
    }

    pub(crate) fn add_recheck(&mut self)
        requires { self.old.rechecks + 1 < 2 ^ 64 }
        ensures { self.new ≡ record self.old { rechecks = self.old.rechecks + 1 } }
    {
        self.rechecks += 1;
    }
}
