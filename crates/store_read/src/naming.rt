// Whether an object is named: by the prototype or the target of an object, or by a property. Its own properties count.
#![tactic(auto, using(store::proofs::WordLaws::sized))]

ghost use Rattle.std.specs.Prelude.{◌≡◌, ◌<◌};
ghost use Rattle.value.specs.Words.{value_of};
ghost use Rattle.store.specs.Release.{value_names, object_names, property_names, objects_name, properties_name, is_named};
ghost use Rattle.store.specs.Words.{store_of, slot_in, property_in};

use crate::{OBJECTS, ROWS, StoreWords};
use value_operations::bits;

// By a value, given by its kind and payload.
#[tactic(auto, using(crate::proofs::NameLaws::none_named), unfolding(value::specs::Words::value_of))]
fn value_names(kind: u64, payload: u64, o: u64) -> bool
    ensures { result ≡ value_names (value_of kind payload) o }
{
    matches!(kind, 7 | 8) && payload == o
}

impl StoreWords<'_> {
    // By object i, if it is live: by its prototype or, as a proxy that is not revoked, by its target.
    #[tactic(auto, using(crate::proofs::NameLaws::object_laws), unfolding(store::specs::Words::slot_in, store::specs::Words::object_in))]
    fn object_names(self, i: usize, o: u64) -> bool
        requires { i < 32 }
        ensures { result ≡ object_names (slot_in self.entry.words.now i) o }
    {
        if !bits::bit(self.words[3], i as u64) {
            return false;
        }
        let at = OBJECTS + 3 * i;
        match self.words[at] {
            0 | 1 => value_names(self.words[at + 1], self.words[at + 2], o),
            2 => self.words[at + 1] == o,
            _ => false,
        }
    }

    // By property i: by its value or getter, or by its setter.
    #[tactic(auto, using(crate::proofs::NameLaws::property_laws), unfolding(store::specs::Words::property_in))]
    fn property_names(self, i: usize, o: u64) -> bool
        requires { i < 256 }
        ensures { result ≡ property_names (property_in self.entry.words.now i) o }
    {
        let at = ROWS + 5 * i;
        value_names(self.words[at + 1], self.words[at + 2], o)
            || (self.words[at] % 2 == 1 && value_names(self.words[at + 3], self.words[at + 4], o))
    }

    fn objects_name(self, o: u64) -> bool
        ensures { result ≡ objects_name (store_of self.entry.words.now).objects o }
    {
        (0..32).any(|i| self.object_names(i, o))
    }

    fn properties_name(self, o: u64) -> bool
        ensures { result ≡ properties_name (store_of self.entry.words.now).properties o }
    {
        (0..self.property_count()).any(|i| self.property_names(i, o))
    }

    #[tactic(auto, unfolding(store::specs::Release::is_named))]
    pub fn is_named(self, o: u64) -> bool
        ensures { result ≡ is_named (store_of self.entry.words.now) o }
    {
        self.objects_name(o) || self.properties_name(o)
    }
}
