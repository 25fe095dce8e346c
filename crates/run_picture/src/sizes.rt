//! How much room numbers take.
use itoa::Buffer;

/// How many pixels so many letters and these numbers take, with a pixel or two beside them.
pub fn room(letters: u64, numbers: &[u64]) -> u64 {
    let mut signs = letters;
    for number in numbers {
        signs = signs.saturating_add(Buffer::new().format(*number).len() as u64);
    }
    signs.saturating_mul(6).saturating_add(4)
}
