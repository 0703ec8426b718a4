// Words that take back what was written to them.
ghost use Rattle.std.specs.Prelude.{◌≡◌, length};

pub fn copy_words(to: &mut [u64], from: &[u64])
    requires { length to.old ≡ length from.now }
    ensures { to.new ≡ from.now }
{
    to.copy_from_slice(from);
}
