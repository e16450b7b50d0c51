//! The count of steps that were really made.

ghost use Rattle.std.specs.Prelude.{◌≡◌, ◌+◌, ◌-◌, ◌^◌, ◌<◌};

use std::marker::Model;

/// How many steps were made. Only [`crate::Machine`] raises it, by one for each step that it makes.
#[derive(Debug, Drop)]
pub struct StepMeter {
    steps: u64,
}

// Clauses see the number.
impl Model for StepMeter {
    ghost use Rattle.std.specs.Prelude.{ℕ};

    ghost Value = { ℕ };

    ghost view = { λ it. it.steps };
}

impl StepMeter {
    /// A meter that no step has raised.
    pub fn new() -> StepMeter
        ensures { result ≡ 0 }
    {
        StepMeter { steps: 0 }
    }

    /// How many steps were made.
    pub fn value(&self) -> u64
        ensures { result ≡ self.now }
    {
        self.steps
    }

    /// One step more.
    pub(crate) fn raise(&mut self)
        requires { self.old < 2 ^ 64 - 1 }
        ensures { self.new ≡ self.old + 1 }
    {
        self.steps += 1;
    }
}
