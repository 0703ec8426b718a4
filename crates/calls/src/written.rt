// What a method that writes answers.
ghost use Rattle.std.specs.Prelude.{◌≡◌};

use store_write::Write;

// Its Boolean, and its write.
#[derive(Clone, Copy)]
pub struct Written {
    pub accepted: bool,
    pub write: Write,
}

impl Written {
    // A Boolean alone.
    pub fn nothing(accepted: bool) -> Written
        ensures accepted { result.accepted ≡ accepted }
        ensures write { result.write ≡ Write.Nothing }
    {
        Written {
            accepted,
            write: Write::Nothing,
        }
    }
}
