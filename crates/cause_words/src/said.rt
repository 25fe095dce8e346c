//! A line of input, as it is quoted.
use std::alloc::AllocError;

/// Appends a line in quotes: its first 60 bytes, with a dot in the place of each that is no sign of ASCII.
pub(crate) fn append_quoted(text: &mut String, line: &[u8]) -> Result<(), AllocError> {
    text.push_str("'")?;
    for byte in line.iter().take(60) {
        let sign = if byte.is_ascii_graphic() || *byte == b' ' {
            char::from(*byte)
        } else {
            '.'
        };
        text.push(sign)?;
    }
    text.push_str(if line.len() > 60 { "..'" } else { "'" })
}
