// Linked by the benchmark alone (bench/store.rs); no entry of the library. These functions write to the store without the
// checks of a step: remove takes a property away even where it is not configurable. A key is a word: string s is 2 s, and
// symbol s is 2 s + 1. Each function tests what it is lent; where it refuses, it changes nothing and answers 257.
// conditions: those tests.
#![tactic(auto)]

ghost use Rattle.std.specs.Prelude.{◌≡◌};
ghost use Rattle.benchmark_store.specs.Export.{place_number, row_property, find_answer, listed, list_answer, added, add_answer, removed, remove_answer};

use property::Property;
use store_read::StoreWords;
use store_write::{properties, removal};
use value_operations::encoding;

mod conditions;

const NOWHERE: u64 = 256;

const REFUSED: u64 = 257;

fn place_number(place: Option<usize>) -> u64
    ensures { result ≡ place_number place }
{
    match place {
        Some(i) => i as u64,
        None => NOWHERE,
    }
}

// The place of a property, or 256 where there is none.
#[unsafe(no_mangle)]
pub extern "C" fn benchmark_store_find(words: &[u64], o: u64, key: u64) -> u64
    ensures { result ≡ find_answer words.now o key }
{
    match StoreWords::new(words) {
        Some(store) => place_number(store.find(o, store_read::key_from_word(key))),
        None => REFUSED,
    }
}

// Lists the own keys of an object, and answers how many they are. It asks for room for 256.
#[unsafe(no_mangle)]
pub extern "C" fn benchmark_store_own_keys(
    words: &[u64],
    strings: &[u16],
    o: u64,
    out: &mut [u64],
) -> u64
    ensures value { result ≡ list_answer words.now strings.now o out.old }
    ensures out_after { out.new ≡ listed words.now strings.now o out.old }
{
    if conditions::is_listable(words, strings, out.len()) {
        StoreWords { words }.list_own_keys(strings, o, out) as u64
    } else {
        REFUSED
    }
}

// The property of five words: flags, kind and payload of the value or getter, kind and payload of the setter.
// (As a store's row is read, but of five words by themselves, as Rust hands them over.)
fn property_of(row: &[u64; 5]) -> Property
    ensures { result ≡ row_property row.now }
{
    let flags = row[0];
    let a = encoding::value_of(row[1], row[2]);
    if flags % 2 == 1 {
        let b = encoding::value_of(row[3], row[4]);
        return Property::Accessor(a, b, flags / 4 % 2 == 1, flags / 8 % 2 == 1);
    }
    Property::Data(
        a,
        flags / 2 % 2 == 1,
        flags / 4 % 2 == 1,
        flags / 8 % 2 == 1,
    )
}

// Adds a new property as the last, and answers how many there are.
#[unsafe(no_mangle)]
pub extern "C" fn benchmark_store_append(words: &mut [u64], o: u64, key: u64, row: &[u64; 5]) -> u64
    ensures value { result ≡ add_answer words.old o key row.now }
    ensures words_after { words.new ≡ added words.old o key row.now }
{
    if conditions::is_addable(words, o, key) {
        properties::add_property(words, o, store_read::key_from_word(key), property_of(row));
        words[1]
    } else {
        REFUSED
    }
}

// Removes a property, if there is one, and answers how many are left.
#[unsafe(no_mangle)]
pub extern "C" fn benchmark_store_remove(words: &mut [u64], o: u64, key: u64) -> u64
    ensures value { result ≡ remove_answer words.old o key }
    ensures words_after { words.new ≡ removed words.old o key }
{
    if conditions::is_removable(words, o, key) {
        removal::remove_property(words, o, store_read::key_from_word(key));
        words[1]
    } else {
        REFUSED
    }
}
