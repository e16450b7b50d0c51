//! Units that are skipped, and references into them.

ghost use Rattle.std.specs.Prelude.{◌≡◌};
ghost use Rattle.om_die.specs.References.{AreRising, is_skipped, is_within};

/// The place of a unit that is skipped.
#[derive(Clone, Copy, Debug)]
pub struct Skipped {
    /// Where it begins in `.debug_info`.
    pub at: u32,
    /// How many bytes it has in all.
    pub size: u32,
}

impl Skipped {
    /// Whether the byte at `offset` belongs to the unit.
    fn has(&self, offset: u32) -> bool
        ensures { result ≡ is_within offset self.now }
    {
        self.at <= offset && offset - self.at < self.size
    }
}

/// Whether the byte at `offset` belongs to one of the `units`, which stand one after another.
pub fn is_elsewhere(units: &[Skipped], offset: u32) -> bool
    requires { AreRising 0 units.now }
    ensures { result ≡ is_skipped units.now offset }
{
    let behind = units.partition_point(|unit| unit.at <= offset);
    if behind == 0 {
        return false;
    }
    units[behind - 1].has(offset)
}
