// Numbers of 32 bits. One that would be larger is the largest number, so nothing wraps and every test still tells.

// A length as a number.
pub fn number(n: usize) -> u32 {
    u32::try_from(n).unwrap_or(u32::MAX)
}
