//! The lines of the input.
ghost use Rattle.std.specs.Prelude.{◌≡◌, option_map};
ghost use Rattle.dover_model.specs.Lines.{fields_of};
ghost use Rattle.lane_server.specs.Lanes as model;
ghost use Rattle.lane_server.specs.Reading.{line_read};

use line_text::first_number;

/// How many bytes a line may have.
const LINE_BYTES: usize = 128;

/// How many lanes there are.
pub(crate) const LANES: u8 = 64;

/// A line of a lane's feed, or the end of the session.
pub(crate) enum LaneLine<'a> {
    OfLane(u8, &'a [u8]),
    Close,
}

/// The lane and its feed's line.
fn numbered_line(line: &[u8]) -> Option<LaneLine<'_>>
    ensures { option_map line_read result ≡ model.numbered_line (fields_of line.now) }
{
    let (number, rest) = first_number(line)?;
    let rest = rest?;
    if number < u64::from(LANES) {
        Some(LaneLine::OfLane(number as u8, rest))
    } else {
        None
    }
}

/// The line that the bytes spell, if they do.
pub(crate) fn lane_line(line: &[u8]) -> Option<LaneLine<'_>>
    ensures { option_map line_read result ≡ model.lane_line line.now }
{
    if line.len() > LINE_BYTES {
        return None;
    }
    if line == b"close".as_slice() {
        return Some(LaneLine::Close);
    }
    numbered_line(line)
}
