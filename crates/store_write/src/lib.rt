// Writing the store's words, one write at a time.
// write: what a write is, and objects. numbers: those that are taken and released. properties: set and add one.
// removal: of a property, and of an object with its properties. copying: all the words.
// What writes asks by a clause that the words are a store: between two of its writes they need be none, so no type says it of them.
#![tactic(auto)]

ghost use Rattle.store.specs.Words.{store_of};
ghost use Rattle.store_write.specs.Write.{Becomes, applied, written_to, FitsIn};

mod copying;
mod numbers;
pub mod properties;
pub mod removal;
mod write;

pub use copying::copy_words;
pub use write::{PropertyWords, Write, add_object, make_empty, room, set_object};

// Makes the write.
pub fn commit(words: &mut [u64], w: Write)
    requires { FitsIn w words.old }
    ensures { Becomes words.new (written_to w words.old) (applied w (store_of words.old)) }
{
    match w {
        Write::Nothing => {}
        Write::Object(o, x) => set_object(words, o as usize, x),
        Write::NewObject(x, callable) => add_object(words, x, callable),
        Write::Change(i, p) => properties::set_property(words, i, p),
        Write::Add(o, k, p) => properties::add_property(words, o, k, p),
        Write::Remove(o, k) => removal::remove_property(words, o, k),
        Write::Release(o) => removal::release_object(words, o),
    }
}
