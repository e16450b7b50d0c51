//! The kinds of columns.

ghost use Rattle.om_value.specs.ColumnKinds as spec;
ghost use Rattle.std.specs.Prelude.{◌≡◌};

use crate::{Catalog, ColumnId, Kind};
use om_base::Interval;

/// The numbers of 32 bits.
fn word_numbers() -> Kind
    ensures { result ≡ spec.word_numbers }
{
    Kind::Int(Interval {
        lo: 0,
        hi: (1 << 32) - 1,
    })
}

/// The kind of a column, over the variables of a program.
#[tactic(auto, unfolding(crate::specs::ColumnKinds::column_kind))]
pub fn column_kind(column: ColumnId, catalog: &Catalog<'_>) -> Kind
    ensures { result ≡ spec.column_kind catalog.now column }
{
    match column {
        ColumnId::Step | ColumnId::Pc | ColumnId::Insn | ColumnId::Line | ColumnId::Reg(_) => {
            word_numbers()
        }
        ColumnId::Func | ColumnId::File => Kind::Text,
        ColumnId::Var(place) => match catalog.as_slice().get(place as usize) {
            Some(info) => match info.scalar {
                Some(interval) => Kind::Int(interval),
                None => Kind::Null,
            },
            None => Kind::Null,
        },
    }
}
