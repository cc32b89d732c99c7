// Bytes of a message by place and number.
ghost use Rattle.std.specs.Prelude.{◌≡◌, length, get_or};
ghost use Rattle.format.specs.Bytes.{within as within_bytes};
ghost use Rattle.scan.specs.Stands.{stands as stands_in};

// The byte at a place; 0 where there is none.
pub fn byte_at(message: &[u8], at: usize) -> u8
    ensures { result ≡ get_or message.now at 0 }
{
    if message.len() <= at {
        return 0;
    }
    message[at]
}

// Whether a byte is there, and is this one.
pub fn stands(message: &[u8], at: usize, mark: u8) -> bool
    ensures { result ≡ stands_in message.now at mark }
{
    if message.len() <= at {
        return false;
    }
    message[at] == mark
}

// Whether the n bytes from `start` on lie inside the message, in whole numbers.
pub fn within(message: &[u8], start: usize, n: usize) -> bool
    ensures { result ≡ within_bytes (length message.now) start n }
{
    if message.len() < start {
        return false;
    }
    n <= message.len() - start
}
