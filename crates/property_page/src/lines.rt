// A line of a page, in lent bytes: key, attributes, value or getter, setter.
// A place goes beside the bytes it is in, since its bound speaks of both.
// Columns have fixed places in what the caller lends, so each is put there; `write!` into a String would take a heap.
ghost use Rattle.std.specs.Prelude.{◌≡◌, [], ◌+◌, ◌≤◌, length};
ghost use Rattle.std.proofs.lemmas.List.Edits.{sets};
ghost use Rattle.steps.specs.Page.{names, padded, class_letter, key_column, mark, attributes_column, value_column, first_column, second_column, line};

use byte_records::value_record;
use property::Property;
use store_read::finding;
use text_rows::digits;
use value::{PropertyKey, Value};

// A line's characters and its feed.
pub const LINE_SIZE: usize = 47;

// The names of the columns; all other bytes stay.
pub fn put_names(out: &mut [u8])
    requires { 47 ≤ length out.old }
    ensures { out.new ≡ sets out.old 0 names }
{
    out[..LINE_SIZE].copy_from_slice(b"key  ecw value or get       set               \n");
}

fn class_letter(key: PropertyKey) -> u8
    ensures { result ≡ class_letter key }
{
    match key {
        PropertyKey::String(_) => b's',
        PropertyKey::Symbol(_) => b'y',
    }
}

// The class and three digits.
fn put_key(out: &mut [u8], at: usize, key: PropertyKey)
    requires { at + 4 ≤ length out.old }
    ensures { out.new ≡ sets out.old at (key_column key) }
{
    let n = finding::number_in(key);
    out[at] = class_letter(key);
    out[at + 1] = (48 + n / 100 % 10) as u8;
    out[at + 2] = (48 + n / 10 % 10) as u8;
    out[at + 3] = (48 + n % 10) as u8;
}

// The letter, or a dot.
fn mark(b: bool, letter: u8) -> u8
    ensures { result ≡ mark b letter }
{
    if b { letter } else { b'.' }
}

fn put_attributes(out: &mut [u8], at: usize, p: Property)
    requires { at + 3 ≤ length out.old }
    ensures { out.new ≡ sets out.old at (attributes_column p) }
{
    match p {
        Property::Data(_, writable, enumerable, configurable) => {
            out[at] = mark(enumerable, b'e');
            out[at + 1] = mark(configurable, b'c');
            out[at + 2] = mark(writable, b'w');
        }
        Property::Accessor(_, _, enumerable, configurable) => {
            out[at] = mark(enumerable, b'e');
            out[at + 1] = mark(configurable, b'c');
            out[at + 2] = b'-';
        }
    }
}

// 18 digits.
fn put_value(out: &mut [u8], at: usize, v: Value)
    requires { at + 18 ≤ length out.old }
    ensures { out.new ≡ sets out.old at (value_column v) }
{
    let mut bytes = [0u8; 9];
    value_record::put_value(&mut bytes, 0, v);
    let _ = digits::put_hexadecimal(out, at, &bytes);
}

// 18 spaces.
fn put_spaces(out: &mut [u8], at: usize)
    requires { at + 18 ≤ length out.old }
    ensures { out.new ≡ sets out.old at (padded 18 []) }
{
    out[at..at + 18].copy_from_slice(&[b' '; 18]);
}

// The value or the getter. (As one pattern each line takes 6 instructions more.)
fn put_first(out: &mut [u8], at: usize, p: Property)
    requires { at + 18 ≤ length out.old }
    ensures { out.new ≡ sets out.old at (first_column p) }
{
    match p {
        Property::Data(value, _, _, _) => put_value(out, at, value),
        Property::Accessor(getter, _, _, _) => put_value(out, at, getter),
    }
}

// The setter, or spaces.
fn put_second(out: &mut [u8], at: usize, p: Property)
    requires { at + 18 ≤ length out.old }
    ensures { out.new ≡ sets out.old at (second_column p) }
{
    match p {
        Property::Data(_, _, _, _) => put_spaces(out, at),
        Property::Accessor(_, setter, _, _) => put_value(out, at, setter),
    }
}

// The line from `at` on; all other bytes stay.
pub fn put_line(out: &mut [u8], at: usize, key: PropertyKey, p: Property)
    requires { at + 47 ≤ length out.old }
    ensures { out.new ≡ sets out.old at (line key p) }
{
    put_key(out, at, key);
    out[at + 4] = b' ';
    put_attributes(out, at + 5, p);
    out[at + 8] = b' ';
    put_first(out, at + 9, p);
    out[at + 27] = b' ';
    put_second(out, at + 28, p);
    out[at + 46] = b'\n';
}
