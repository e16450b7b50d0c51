//! What can stand in a table, and how it is shown there.

ghost use Rattle.std.specs.Prelude.{◌≡◌, ◌≤◌, ◌^◌, ◌++◌, length, List, ℕ, IfOk, OnOk, OnErr};
ghost use Rattle.om_table.specs.Escape.{escaped};
ghost use Rattle.om_table.specs.Text as spec;

use crate::escaping::{escape_into, escaped_len};
use crate::quotes::quote_into;
use itoa::Buffer;
use om_base::{NoMemory, Text, put_decimal};
use om_eval::Owned;

/// What can stand in a cell: a name or a value.
pub trait Printed {
    /// How it is shown.
    ghost shown: { Self → List ℕ };

    /// How it stands between commas.
    ghost field: { Self → List ℕ };

    /// How many bytes it is shown as. It takes no memory, and is refused only where their number isn't a `usize`.
    fn shown_len(&self) -> Result<usize, NoMemory>
        ensures len { IfOk result (λ len. len ≡ length (shown self.now)) }
        ensures refused { OnErr result (2 ^ 64 ≤ length (shown self.now)) };

    /// Appends it as it is shown. After a refusal a part of it may stand at the end of `text`.
    fn show_into(&self, text: &mut Text) -> Result<(), NoMemory>
        ensures { OnOk result (text.new ≡ text.old ++ shown self.now) };

    /// Appends it as it stands between commas. After a refusal a part of it may stand at the end of `text`.
    fn put_field(&self, text: &mut Text) -> Result<(), NoMemory>
        ensures { OnOk result (text.new ≡ text.old ++ field self.now) };
}

// A name.
impl Printed for Text {
    ghost shown = { escaped };

    ghost field = { spec.quoted };

    fn shown_len(&self) -> Result<usize, NoMemory> {
        escaped_len(self.bytes())
    }

    fn show_into(&self, text: &mut Text) -> Result<(), NoMemory> {
        escape_into(text, self.bytes())
    }

    fn put_field(&self, text: &mut Text) -> Result<(), NoMemory> {
        quote_into(text, self.bytes())
    }
}

// A value.
impl Printed for Owned {
    ghost shown = { spec.shown };

    ghost field = { spec.field_of };

    fn shown_len(&self) -> Result<usize, NoMemory> {
        match self {
            Owned::Int(number) => Ok(Buffer::new().format(*number).len()),
            Owned::Text(text) => escaped_len(text.bytes()),
            Owned::Null => Ok(4),
        }
    }

    fn show_into(&self, text: &mut Text) -> Result<(), NoMemory> {
        match self {
            Owned::Int(number) => put_decimal(text, *number),
            Owned::Text(bytes) => escape_into(text, bytes.bytes()),
            Owned::Null => text.add(b"NULL"),
        }
    }

    fn put_field(&self, text: &mut Text) -> Result<(), NoMemory> {
        match self {
            Owned::Int(number) => put_decimal(text, *number),
            Owned::Text(bytes) => quote_into(text, bytes.bytes()),
            Owned::Null => Ok(()),
        }
    }
}
