// Signed numbers.

// The magnitude of a signed number.
pub fn magnitude(n: i64) -> u64 {
    n.unsigned_abs()
}
