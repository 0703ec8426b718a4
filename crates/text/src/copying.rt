// Copies of which the library for C needs no function from outside.
ghost use Rattle.std.specs.Prelude.{◌≡◌, length};

// One by one, where `copy_from_slice` calls `memmove`.
pub fn copy<T: Copy>(to: &mut [T], from: &[T])
    requires { length from.now ≡ length to.old }
    ensures { to.new ≡ from.now }
{
    for i in 0..from.len() {
        to[i] = from[i];
    }
}
