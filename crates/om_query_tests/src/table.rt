//! Printed texts, byte by byte.

ghost use Rattle.std.specs.Prelude.{◌≡◌, length, IfOk};
ghost use Rattle.om_table.specs.Text.{IsTable};

use om_base::{Items, NoMemory, Text};
use om_eval::Owned;
use om_table::{Style, Table, TableFault, print_table};
use std::alloc::Global;
use std::test::Fail;

fn names(alloc: Global) -> Result<Items<Text>, NoMemory>
    ensures { IfOk result (λ names. length names ≡ 2) }
{
    let first = Text::copy_of(alloc, b"a1")?;
    let second = Text::copy_of(alloc, b"who")?;
    Ok(Items::from_vec(vec![in alloc; first, second]?))
}

fn row(alloc: Global, first: Owned, second: &[u8]) -> Result<Items<Owned>, NoMemory>
    ensures { IfOk result (λ row. length row ≡ 2) }
{
    let second = Owned::Text(Text::copy_of(alloc, second)?);
    Ok(Items::from_vec(vec![in alloc; first, second]?))
}

fn texts(alloc: Global) -> Result<Table, NoMemory>
    ensures { IfOk result (λ table. IsTable table) }
{
    let names = names(alloc)?;
    let first = row(alloc, Owned::Null, b"a\n\"b")?;
    let second = row(alloc, Owned::Int(-12), b"\\")?;
    let rows = Items::from_vec(vec![in alloc; first, second]?);
    Ok(Table { names, rows })
}

#[test]
fn tables_have_these_texts(rt: HostRuntime) -> Result<(), Fail> {
    let alloc = rt.alloc();
    let table = texts(alloc)?;
    let rows = [
        (
            Style::Columns,
            46,
            b"  a1     who\nNULL  a\\0a\"b\n -12     \\5c\nrows 2\n".as_slice(),
        ),
        (
            Style::Csv,
            28,
            b"\"a1\",\"who\"\n,\"a\n\"\"b\"\n-12,\"\\\"\n",
        ),
    ];
    for (style, length, want) in rows {
        let text = print_table(alloc, &table, style, length)?;
        assert_eq!(rt; text.bytes(), want, "{style:?}");
        let refused = print_table(alloc, &table, style, length - 1).err();
        assert!(rt;
            refused == Some(TableFault::TooManyBytes { limit: length - 1 }),
            "{style:?}"
        );
    }
    Ok(())
}
