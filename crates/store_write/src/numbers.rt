// The numbers of objects: the next one is taken, and one is released. The released ones stand in a ring of 32 words.
#![tactic(auto, using(crate::proofs::WriteLaws::numbers))]

ghost use Rattle.std.specs.Prelude.{◌≡◌, ◌≤◌, length};
ghost use Rattle.store.specs.Words.{store_size, word_at, with_number_taken, with_number_released};

use store_read::QUEUE;

// From the released ones, or one number more is in use.
pub fn take_number(words: &mut [u64])
    requires { (length words.old ≡ store_size) × (word_at words.old 0 ≤ 32) }
    ensures { words.new ≡ with_number_taken words.old }
{
    let released = words[4];
    if released == 0 {
        words[0] += 1;
    } else {
        words[5] = (words[5] % 32 + 1) % 32;
        words[4] = released - 1;
    }
}

// The number o is the last of those released, if there is room.
pub fn release_number(words: &mut [u64], o: u64)
    requires { length words.old ≡ store_size }
    ensures { words.new ≡ with_number_released words.old o }
{
    let released = words[4];
    if released < 32 {
        let place = ((words[5] % 32 + released) % 32) as usize;
        words[QUEUE + place] = o;
        words[4] = released + 1;
    }
}
