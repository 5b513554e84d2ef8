ghost use Rattle.std.specs.Prelude.{◌≡◌, ◌-◌, ◌<◌, ◌≤◌, List, length, take, IfOk};
ghost use Rattle.lfpl.specs.Reading.{signature_at, signatures_at};
ghost use Rattle.lfpl.specs.Syntax.{Ty};
ghost use Rattle.tables.specs.Inner.{Few, Gives, Numbered, parameters_at};
ghost use Rattle.tables.specs.Listed.{AllSign, Signs};

use crate::listing::Signature;
use crate::types::type_number;
use codec::cursor::Cursor;
use codec::fault::Fault;

// a function has up to below so many parameters
const PARAMETERS_END: u32 = 7;

// a table has from one function up to below so many
const FUNCTIONS_END: u32 = 33;

// The types of a function's parameters, in `slots`, of so many types; answers the count of parameters.
fn parameters(cursor: &mut Cursor, types: usize, slots: &mut [u8]) -> Result<usize, Fault>
    requires slots { length slots.old ≡ 6 }
    requires types { types ≤ 64 }
    ensures gives { (ts : List Ty) → length ts ≡ types → Gives (parameters_at ts) (λ n As. Numbered ts (take n slots.new) As) cursor.old result cursor.new }
    ensures bound { IfOk result (λ n. n ≤ 6) }
{
    let arity = cursor.within(0, PARAMETERS_END)? as usize;
    for slot in &mut slots[..arity] {
        *slot = type_number(cursor, types)?;
    }
    Ok(arity)
}

// A function's signature, where a table has so many types.
fn signature(cursor: &mut Cursor, types: usize) -> Result<Signature, Fault>
    requires { types ≤ 64 }
    ensures gives { (ts : List Ty) → length ts ≡ types → Gives (signature_at ts) (Signs ts) cursor.old result cursor.new }
    ensures bound { IfOk result (λ f. f.arity ≤ 6) }
{
    let mut params = [0u8; 6];
    let arity = parameters(cursor, types, &mut params)?;
    let result = type_number(cursor, types)?;
    Ok(Signature {
        params,
        arity,
        result,
    })
}

// The signatures of a table of so many types, in `slots`; answers their count.
pub fn signatures(
    cursor: &mut Cursor,
    types: usize,
    slots: &mut [Signature],
) -> Result<usize, Fault>
    requires slots { length slots.old ≡ 32 }
    requires types { types ≤ 64 }
    ensures gives { (ts : List Ty) → length ts ≡ types → Gives (signatures_at ts) (λ n ss. AllSign ts (take n slots.new) ss) cursor.old result cursor.new }
    ensures bound { IfOk result (λ n. (n ≤ 32) × Few (take n slots.new)) }
{
    let count = cursor.within(1, FUNCTIONS_END)? as usize;
    for slot in &mut slots[..count] {
        *slot = signature(cursor, types)?;
    }
    Ok(count)
}
