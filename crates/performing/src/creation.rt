// Making objects, functions and proxies, revoking a proxy and releasing an object: the operations that make no calls.
// What a value or an object becomes is a function with an equation each; `From` beside one would say the same again.
ghost use Rattle.std.specs.Prelude.{◌≡◌, true};
ghost use Rattle.store.specs.Store.{named, lookup};
ghost use Rattle.value.specs.Bits.{bit};
ghost use Rattle.store.specs.Words.{store_of, word_at};
ghost use Rattle.store_write.specs.Write.{FitsIn};
ghost use Rattle.steps.specs.Operation.{natural_number, natural_of};
ghost use Rattle.reporting.specs.Performed.{Taken, is_plain};
ghost use Rattle.performing.specs.Creation.{make_out, make_object_out, make_proxy_out, revoke_out, revocation, release_out};

use internal_methods::Failure;
use reporting::Performed;
use steps::Completion;
use store::{Object, OrdinaryObject, ProxyObject};
use store_read::StoreWords;
use store_write::Write;
use value::Value;

// The value that names an object.
fn named(callable: bool, o: u64) -> Value
    ensures { result ≡ named callable o }
{
    if callable {
        Value::Function(o)
    } else {
        Value::Object(o)
    }
}

// An object has the next number, if there is room for it.
fn make(store: StoreWords<'_>, x: Object, callable: bool) -> Result<Performed, Failure>
    ensures value { result ≡ make_out (store_of store.entry.words.now) x callable }
    ensures taken { Taken store.entry.words.now result }
{
    if store.has_object_room() {
        let number = store.next_number();
        Ok(Performed {
            completion: Completion::Value(named(callable, number)),
            write: Write::NewObject(x, callable),
        })
    } else {
        Err(Failure::Refused(7))
    }
}

// Codes 1 and 16: an ordinary object, callable or not
pub fn make_object(
    store: StoreWords<'_>,
    prototype: Value,
    callable: bool,
) -> Result<Performed, Failure>
    ensures value { result ≡ make_object_out (store_of store.entry.words.now) prototype callable }
    ensures taken { Taken store.entry.words.now result }
{
    let object = OrdinaryObject {
        prototype,
        extensible: true,
    };
    make(store, Object::Ordinary(object), callable)
}

fn natural_number(n: i32) -> u64
    ensures { result ≡ natural_number n }
{
    if n < 0 { 0 } else { n as u64 }
}

// The natural number that a value is: a trap mask, or an integrity level.
pub fn natural_of(v: Value) -> u64
    ensures { result ≡ natural_of v }
{
    match v {
        Value::Integer32(n) => natural_number(n),
        _ => 0,
    }
}

// Code 2: a proxy over an object
pub fn make_proxy(store: StoreWords<'_>, target: u64, mask: Value) -> Result<Performed, Failure>
    ensures value { result ≡ make_proxy_out (store_of store.entry.words.now) target mask }
    ensures taken { Taken store.entry.words.now result }
{
    let proxy = ProxyObject {
        target,
        traps: natural_of(mask),
        revoked: false,
    };
    make(store, Object::Proxy(proxy), false)
}

// The write that revokes a proxy.
fn revocation(o: u64, x: Object) -> Write
    ensures { result ≡ revocation o x }
{
    match x {
        Object::Ordinary(_) => Write::Nothing,
        Object::Proxy(p) => Write::Object(
            o,
            Object::Proxy(ProxyObject {
                target: p.target,
                traps: p.traps,
                revoked: true,
            }),
        ),
    }
}

// Code 3: a proxy is revoked; again is harmless
pub fn revoke(store: StoreWords<'_>, o: u64) -> Performed
    ensures value { result ≡ revoke_out o (lookup (store_of store.entry.words.now) o) }
    ensures fits { FitsIn result.write store.entry.words.now }
    ensures plain { is_plain result.completion ≡ true }
{
    let write = match store.object_at(o) {
        None => Write::Nothing,
        Some(x) => revocation(o, x),
    };
    Performed {
        completion: Completion::Value(Value::Boolean(true)),
        write,
    }
}

// Code 17: an object is released
pub fn release(store: StoreWords<'_>, o: u64) -> Performed
    requires { bit (word_at store.words.now 3) o ≡ true }
    ensures value { result ≡ release_out o }
    ensures fits { FitsIn result.write store.entry.words.now }
    ensures plain { is_plain result.completion ≡ true }
{
    Performed {
        completion: Completion::Value(Value::Boolean(true)),
        write: Write::Release(o),
    }
}
