//! Lines on their way out, each with its line feed.
ghost use Rattle.std.specs.Prelude.{◌≡◌, ◌++◌, ◌∷◌, []};
ghost use Rattle.event_feed.specs.DueLines.{out_text, HasNumerals};
ghost use Rattle.lane_server.specs.Lanes.{in_lane};

use dialogue::lines::write_out;
use event_feed::DueLine;
use line_text::BackLine;

/// Writes the line that is due for a lane, with the lane's number in front, in place of what `line` had.
#[inline(always)]
pub(crate) fn write_in_lane(lane: u8, out: DueLine, line: &mut BackLine)
    requires { HasNumerals out }
    ensures { line.new ≡ in_lane lane (out_text out) ++ 10 ∷ [] }
{
    write_out(&out, line);
    line.put_word(b" ");
    line.put_number(u64::from(lane));
}
