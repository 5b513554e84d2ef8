ghost use Rattle.std.specs.Prelude.{◌≡◌, length, nat_lt};
ghost use Rattle.codec.specs.declared.fault.Part.TheVariants.{Table as part_table};
ghost use Rattle.tables.specs.Read.{Reads};

use crate::expressions::expressions;
use crate::listing::{Listing, Signature, blank};
use crate::signatures::signatures;
use crate::types::{NO_ENTRY, types};
use codec::cursor::Cursor;
use codec::fault::{Fault, Part, Refusal};

// Whether a byte stands at the place.
fn is_within(place: usize, bytes: &[u8]) -> bool
    ensures { result ≡ nat_lt place (length bytes.now) }
{
    place < bytes.len()
}

// Reads a table at a cursor: its types, its functions' signatures and their bodies, with no byte left over.
fn table(cursor: &mut Cursor, bytes: &[u8]) -> Result<Listing, Fault>
    requires { cursor.old.bytes.now ≡ bytes.now }
    ensures { cursor.old.at ≡ 0 → cursor.old.part ≡ part_table → Reads bytes.now result }
{
    let mut entries = [NO_ENTRY; 64];
    let type_count = types(cursor, &mut entries)?;
    let mut slots = [Signature::default(); 32];
    let function_count = signatures(cursor, type_count, &mut slots)?;
    let mut nodes = [blank(); 512];
    let count = expressions(cursor, type_count, &slots[..function_count], &mut nodes)?;
    let place = cursor.place();
    if is_within(place, bytes) {
        return Err(cursor.fault(Refusal::BytesOver, place));
    }
    Ok(Listing {
        entries,
        types: type_count,
        signatures: slots,
        functions: function_count,
        nodes,
        expressions: count,
    })
}

// Reads a table.
pub fn read_table(bytes: &[u8]) -> Result<Listing, Fault>
    ensures { Reads bytes.now result }
{
    let mut cursor = Cursor::new(bytes, Part::Table);
    table(&mut cursor, bytes)
}
