// Values, properties, completions and the whole store as bytes, for a comparison: a number is written as the bits of its Float64, so that
// equal bytes are SameValue. tests/engines/1-records.js has the layout.
ghost use Rattle.std.specs.Prelude.{◌≡◌, ◌≤◌, length, true};
ghost use Rattle.text.specs.Table.{is_table};

use crate::entry_calls::Memory;
use property::Property;
use reporting::report_words;
use steps::{Completion, Outcome};
use store::{Object, OrdinaryObject};
use store_read::StoreWords;
use value::{PropertyKey, Value};
use value_operations::{bits, encoding};

// Bytes from the start of lent ones. Those for which there is no room are dropped. (A count beside them: what is behind it stays.)
#[derive(Drop)]
pub struct Bytes<'a> {
    room: &'a mut [u8],
    size: usize,
}

impl<'a> Bytes<'a> {
    pub fn new(room: &'a mut [u8]) -> Bytes<'a> {
        Bytes { room, size: 0 }
    }

    pub fn as_slice(&self) -> &[u8] {
        self.room.get(..self.size).unwrap_or_default()
    }

    fn put(&mut self, bytes: &[u8]) {
        for byte in bytes {
            if let Some(place) = self.room.get_mut(self.size) {
                *place = *byte;
                self.size += 1;
            }
        }
    }

    // The low byte of a number.
    fn put_low(&mut self, n: u64) {
        self.put(&n.to_le_bytes()[..1]);
    }

    fn put_short(&mut self, n: u64) {
        self.put(&n.to_le_bytes()[..2]);
    }

    fn put_numbered(&mut self, kind: u8, n: u64) {
        self.put(&[kind]);
        self.put_low(n);
    }

    fn put_float(&mut self, x: f64) {
        self.put(&[4]);
        self.put(&encoding::words_of(Value::Float64(x)).payload.to_le_bytes());
    }

    fn put_value(&mut self, v: Value) {
        match v {
            Value::Undefined => self.put(&[0]),
            Value::Null => self.put(&[1]),
            Value::Boolean(b) => self.put(&[2, u8::from(b)]),
            Value::Integer32(n) => self.put_float(f64::from(n)),
            Value::Float64(x) => self.put_float(x),
            Value::String(n) => self.put_numbered(5, n),
            Value::Symbol(n) => self.put_numbered(6, n),
            Value::Object(n) => self.put_numbered(7, n),
            Value::Function(n) => self.put_numbered(8, n),
        }
    }

    fn put_property(&mut self, p: Property) {
        self.put_low(report_words::flags_of(p));
        match p {
            Property::Data(v, _, _, _) => self.put_value(v),
            Property::Accessor(g, s, _, _) => {
                self.put_value(g);
                self.put_value(s);
            }
        }
    }

    // A completion that is a property, or absence.
    fn put_own(&mut self, own: Option<Property>) {
        match own {
            None => self.put(&[3]),
            Some(p) => {
                self.put(&[2]);
                self.put_property(p);
            }
        }
    }

    fn put_valued(&mut self, v: Value) {
        self.put(&[1]);
        self.put_value(v);
    }

    fn put_completion(&mut self, c: Completion) {
        match c {
            Completion::Value(v) => self.put_valued(v),
            Completion::Descriptor(p) => self.put_own(Some(p)),
            Completion::Absent => self.put_own(None),
            Completion::Keys(n) => {
                self.put(&[4]);
                self.put_short(n);
            }
            Completion::Page(n) => {
                self.put(&[6]);
                self.put_short(n);
            }
        }
    }

    // What a call ends in, beside its outcome and number.
    pub fn put_outcome(&mut self, outcome: Outcome) {
        match outcome {
            Outcome::Result(c) => self.put_completion(c),
            Outcome::Thrown(v) => self.put_valued(v),
            Outcome::Refused(_) | Outcome::TypeError(_) => {}
        }
    }

    // Yes or no, the first test that fails, and the property after it.
    pub fn put_verdict(&mut self, accepted: bool, test: u64, own: Option<Property>) {
        self.put(&[5, u8::from(accepted)]);
        self.put_low(test);
        self.put_own(own);
    }

    fn put_key(&mut self, key: PropertyKey) {
        match key {
            PropertyKey::String(n) => self.put_numbered(5, n),
            PropertyKey::Symbol(n) => self.put_numbered(6, n),
        }
    }

    // The own keys of an object, and the property of each; 255 where there is none.
    fn put_entries(&mut self, store: StoreWords<'_>, strings: &[u16], o: u64)
        requires { is_table strings.now ≡ true }
    {
        let mut keys = [0; 256];
        let count = store.list_own_keys(strings, o, &mut keys);
        let keys = &keys[..count.min(256)];
        self.put_short(keys.len() as u64);
        for word in keys {
            let key = store_read::key_from_word(*word);
            self.put_key(key);
            match store.own(o, key) {
                None => self.put(&[255]),
                Some(p) => self.put_property(p),
            }
        }
    }

    // Callable, extensible, and the prototype.
    fn put_ordinary(&mut self, callable: bool, r: OrdinaryObject) {
        self.put(&[u8::from(callable), u8::from(r.extensible)]);
        self.put_value(r.prototype);
    }

    fn put_object(&mut self, store: StoreWords<'_>, strings: &[u16], o: u64)
        requires { is_table strings.now ≡ true }
    {
        match store.object_at(o) {
            None => self.put(&[255]),
            Some(Object::Proxy(_)) => self.put(&[2]),
            Some(Object::Ordinary(r)) => {
                self.put_ordinary(bits::bit(store.callable(), o), r);
                self.put_entries(store, strings, o);
            }
        }
    }

    // How many strings there are, which objects are live, and each of them; nothing where the words are no store or the cells no table.
    pub fn put_store(&mut self, memory: &Memory) {
        let Some(store) = StoreWords::new(&memory.words) else {
            return;
        };
        let strings = &memory.strings;
        if text::is_table(strings) {
            if let Some(n) = text::count(strings) {
                self.put_short(n);
            }
            let live = store.live();
            self.put(&live.to_le_bytes()[..4]);
            for o in 0..32 {
                if bits::bit(live, o) {
                    self.put_object(store, strings, o);
                }
            }
        }
    }
}
