// 10.1.2.1 step 7: the chain of prototypes.
#![tactic(auto, using(crate::proofs::ChainLaws::chain))]

ghost use Rattle.std.specs.Prelude.{◌≡◌, length};
ghost use Rattle.store.specs.Words.{store_of};
ghost use Rattle.internal_methods.specs.Ordinary as ordinary;

use store::Object;
use store_read::StoreWords;
use value::Value;

const MAXIMUM_OBJECTS: usize = 32;

// 10.1.2.1 step 7: does the chain of prototypes from v lead to o? It has at most as many members as there are objects.
pub fn reaches(store: StoreWords<'_>, o: u64, v: Value) -> bool
    ensures { result ≡ ordinary.reaches (length (store_of store.entry.words.now).objects) (store_of store.entry.words.now) o v }
{
    let mut p = v; // 5
    for _ in 0..MAXIMUM_OBJECTS {
        let Some(member) = value_operations::object_of(p) else {
            return false; // 7.a
        };
        if member == o {
            return true; // 7.b
        }
        match store.object_at(member) {
            Some(Object::Ordinary(object)) => p = object.prototype, // 7.c.ii
            _ => return false, // 7.c.i
        }
    }
    false
}
