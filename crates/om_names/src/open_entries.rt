//! The entries that are open on a walk over a unit: DWARF 4, section 2.3.

ghost use Rattle.std.specs.Prelude.{◌≡◌, reverse};
ghost use Rattle.om_names.specs.OpenEntries.{closed, last_inside};

use crate::around::Around;

/// An entry that is open: others may stand below it.
#[derive(Debug, Drop)]
pub struct Open<'a> {
    /// How many entries it stands below.
    pub depth: u32,
    /// What the entries stand in that stand right below it.
    pub inside: Around<'a>,
}

/// Closes the entries that are as deep as a new one, or deeper.
pub fn close(stack: &mut Vec<Open<'_>>, depth: u32)
    ensures { reverse stack.new.items ≡ closed depth (reverse stack.old.items) }
{
    while let Some(last) = stack.last() {
        if last.depth < depth {
            return;
        }
        stack.pop();
    }
}

/// What the next entry stands in.
pub fn last_inside<'a>(stack: &[Open<'a>]) -> Around<'a>
    ensures { result ≡ last_inside (reverse stack.now) }
{
    match stack.last() {
        Some(last) => last.inside.again(),
        None => Around::nothing(),
    }
}
