// The text of a message, written into lent bytes.
ghost use Rattle.std.specs.Prelude.{◌≡◌, length};
ghost use Rattle.internal_methods.specs.Messages.{message_text};
ghost use Rattle.message.specs.Written.{written};

// Writes the text of message n from the start on, where all of it fits, and answers its length: 0 where there is no such message.
pub fn write_message(n: u64, text: &mut [u8]) -> u64
    ensures size { result ≡ length (message_text n) }
    ensures after { text.new ≡ written (message_text n) text.old }
{
    let message = crate::text_of(n);
    let size = message.len();
    if size <= text.len() {
        text[..size].copy_from_slice(message);
    }
    size as u64
}
