ghost use Rattle.programmer.specs.Entries.{listed_entries};
ghost use Rattle.store.specs.Scanning.{Listed};

use judge::table::Table;

/// An adopted table. That its entries list types is known wherever it is.
#[derive(Drop)]
pub struct Adopted {
    pub(crate) table: Table,
    ghost sound: { ∥ Listed (listed_entries table) ∥₁ },
}
