ghost use Rattle.std.specs.Prelude.{◌≡◌, ◌≤◌, length};
ghost use Rattle.programmer.specs.Shelved.{entries_in, table_of};
ghost use Rattle.store.specs.Scanning.{Listed};

use crate::adopted::Adopted;
use tables::listing::Entry;

// The entries of the types of the table adopted, by number; none without a table.
pub(crate) fn entries_of(table: &Option<Adopted>) -> &[Entry]
    ensures is { result.now ≡ entries_in (table_of table.now) }
    ensures few { length result.now ≤ 64 }
    ensures listed { Listed result.now }
{
    match table {
        Some(adopted) => adopted.table.listing().type_entries(),
        None => &[],
    }
}
