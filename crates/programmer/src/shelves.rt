ghost use Rattle.programmer.specs.Shelved.{OfTable, table_of};

use crate::adopted::Adopted;
use crate::shelf::{SHELVES, Stored};

/// The shelves, and the table whose types their values have.
#[derive(Drop)]
pub struct Shelves {
    // the table adopted last
    pub(crate) table: Option<Adopted>,
    pub(crate) places: [Option<Stored>; SHELVES],
    ghost of_table: { OfTable (table_of table) places },
}
