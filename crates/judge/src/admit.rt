ghost use Rattle.lfpl.specs.Admission.{AdmissionIsTyping};
ghost use Rattle.judge.specs.Admitting.{Admits, AdmitsOver};

use crate::judge::judge_listing;
use crate::table::Table;
use codec::fault::Fault;
use tables::read::read_table;

// Admits a table: its bytes are read, and what they spell is judged. A table is admitted exactly when Hofmann's rules give each body its declared type; else the
// first fault is answered.
pub fn admit(bytes: &[u8]) -> Result<Table, Fault>
    ensures answers { Admits bytes.now result }
    ensures typing { AdmissionIsTyping bytes.now }
    ensures words { AdmitsOver bytes.now result }
{
    let listing = read_table(bytes)?;
    judge_listing(listing)
}
