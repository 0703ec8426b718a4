// What the exported functions ask of what they are lent.
#![tactic(auto, using(store::proofs::WordLaws::sized), unfolding(crate::specs::Export::is_joined, crate::specs::Export::is_listable, crate::specs::Export::is_addable, crate::specs::Export::is_removable))]

ghost use Rattle.std.specs.Prelude.{◌≡◌};
ghost use Rattle.benchmark_store.specs.Export.{is_joined, is_new, is_listable, is_addable, is_removable};

use store_read::{StoreWords, finding};

pub fn is_listable(words: &[u64], strings: &[u16], size: usize) -> bool
    ensures { result ≡ is_listable words.now strings.now size }
{
    store_read::is_store(words) && text::is_table(strings) && 256 <= size
}

fn is_joined(o: u64, key: u64) -> bool
    ensures { result ≡ is_joined o key }
{
    o < 32 && key / 2 < finding::NUMBERS
}

fn is_new(store: StoreWords<'_>, o: u64, key: u64) -> bool
    ensures { result ≡ is_new store.entry.words.now o key }
{
    match store.find(o, store_read::key_from_word(key)) {
        Some(_) => false,
        None => true,
    }
}

pub fn is_addable(words: &[u64], o: u64, key: u64) -> bool
    ensures { result ≡ is_addable words.now o key }
{
    store_read::is_store(words)
        && words[1] < 256
        && is_joined(o, key)
        && is_new(StoreWords { words }, o, key)
}

pub fn is_removable(words: &[u64], o: u64, key: u64) -> bool
    ensures { result ≡ is_removable words.now o key }
{
    store_read::is_store(words) && is_joined(o, key)
}
