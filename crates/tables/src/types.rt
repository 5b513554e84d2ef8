ghost use Rattle.std.specs.Prelude.{◌≡◌, ◌+◌, ◌-◌, ◌<◌, ◌≤◌, true, false, not, ◌&&◌, List, [], ◌∷◌, ◌++◌, length, take, IfOk, nat_le};
ghost use Rattle.lfpl.specs.Reading.{entry_at, member, roomy, type_ref, types_at};
ghost use Rattle.lfpl.specs.Syntax.{Ty, is_heap_free, width};
ghost use Rattle.tables.specs.Inner.{Gives, Makes, Refers, form_at};
ghost use Rattle.tables.specs.Listed.{Below, Types, formed};

use crate::listing::{Entry, Form};
use codec::cursor::Cursor;
use codec::fault::{Fault, Refusal};

// a table has from one type up to below so many
const TYPES_END: u32 = 65;

// no type is wider, in words
const WIDEST: u32 = 16;

// nor an element of a list, which shares a memory cell of sixteen words with the tail's word
const WIDEST_ELEMENT: u8 = 15;

// what stands where there is no entry (no `Default`: its entry of N would have no width)
pub const NO_ENTRY: Entry = Entry {
    form: Form::Number,
    width: 1,
    heap_free: true,
};

// The number of one of `count` types.
pub fn type_number(cursor: &mut Cursor, count: usize) -> Result<u8, Fault>
    requires { count ≤ 64 }
    ensures gives { (ts : List Ty) → length ts ≡ count → Gives (type_ref ts) (Refers ts) cursor.old result cursor.new }
    ensures bound { IfOk result (λ n. n < count) }
{
    let n = cursor.within(0, count as u32)?;
    Ok(n as u8)
}

// The form of an entry after `count` others.
fn read_form(cursor: &mut Cursor, count: usize) -> Result<Form, Fault>
    requires { count ≤ 64 }
    ensures gives { (ts : List Ty) → length ts ≡ count → Gives (form_at ts) (Makes ts) cursor.old result cursor.new }
    ensures bound { IfOk result (λ form. Below count form) }
{
    match cursor.within(0, 6)? {
        0 => Ok(Form::Number),
        1 => Ok(Form::Diamond),
        2 => Ok(Form::List(type_number(cursor, count)?)),
        3 => Ok(Form::Tree(type_number(cursor, count)?)),
        4 => Ok(Form::Pair(type_number(cursor, count)?, type_number(cursor, count)?)),
        5 => Ok(Form::Sum(type_number(cursor, count)?, type_number(cursor, count)?)),
        _ => unreachable!(),
    }
}

// One of the entries has the form.
fn repeated(entries: &[Entry], form: Form) -> bool
    ensures { (ts : List Ty) (A : Ty) → Types entries.now ts → Makes ts form A → result ≡ member A ts }
{
    entries.iter().any(|e| e.form == form)
}

// The width of a type of the form, made of types that the entries list.
fn width_of(form: Form, entries: &[Entry]) -> u32
    requires { Below (length entries.now) form }
    ensures { (ts : List Ty) → Types entries.now ts → result ≡ width (formed ts form) }
{
    match form {
        Form::Number | Form::Diamond | Form::List(_) => 1,
        Form::Tree(a) => 3 + entries[a as usize].width as u32,
        Form::Pair(a, b) => entries[a as usize].width as u32 + entries[b as usize].width as u32,
        Form::Sum(a, b) => 1
            + (entries[a as usize].width as u32).max(entries[b as usize].width as u32),
    }
}

// A type of the form, of so many words, is too wide, or the element of a list is.
fn too_wide(form: Form, words: u32, entries: &[Entry]) -> bool
    requires { Below (length entries.now) form }
    ensures wide { (ts : List Ty) → Types entries.now ts → words ≡ width (formed ts form) → result ≡ not (nat_le (width (formed ts form)) 16 && roomy (formed ts form)) }
    ensures small { result ≡ false → words ≤ 16 }
{
    match form {
        Form::List(a) => words > WIDEST || entries[a as usize].width > WIDEST_ELEMENT,
        _ => words > WIDEST,
    }
}

// Whether a type of the form is heap-free, made of types that the entries list.
fn heap_free(form: Form, entries: &[Entry]) -> bool
    requires { Below (length entries.now) form }
    ensures { (ts : List Ty) → Types entries.now ts → result ≡ is_heap_free (formed ts form) }
{
    match form {
        Form::Number => true,
        Form::Diamond | Form::List(_) | Form::Tree(_) => false,
        Form::Pair(a, b) | Form::Sum(a, b) => {
            entries[a as usize].heap_free && entries[b as usize].heap_free
        }
    }
}

// One entry more after `entries`.
fn entry(cursor: &mut Cursor, entries: &[Entry]) -> Result<Entry, Fault>
    requires { length entries.now ≤ 64 }
    ensures { (ts : List Ty) → Types entries.now ts → Gives (entry_at ts) (λ e A. Types (entries.now ++ e ∷ []) (ts ++ A ∷ [])) cursor.old result cursor.new }
{
    let start = cursor.place();
    let form = read_form(cursor, entries.len())?;
    if repeated(entries, form) {
        return Err(cursor.fault(Refusal::EntryRepeated, start));
    }
    let width = width_of(form, entries);
    if too_wide(form, width, entries) {
        return Err(cursor.fault(Refusal::TooWide, start));
    }
    let heap_free = heap_free(form, entries);
    Ok(Entry {
        form,
        width: width as u8,
        heap_free,
    })
}

// The types of a table, in `slots`; answers their count.
pub fn types(cursor: &mut Cursor, slots: &mut [Entry]) -> Result<usize, Fault>
    requires { length slots.old ≡ 64 }
    ensures gives { Gives types_at (λ n ts. Types (take n slots.new) ts) cursor.old result cursor.new }
    ensures bound { IfOk result (λ n. n ≤ 64) }
{
    let count = cursor.within(1, TYPES_END)? as usize;
    for i in 0..count {
        // an index: an iterator over the slots would not lend those that are filled
        slots[i] = entry(cursor, &slots[..i])?;
    }
    Ok(count)
}
