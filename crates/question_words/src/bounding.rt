//! The line of the bound.
ghost use Rattle.std.specs.Prelude.{◌≡◌, ◌≤◌, ◌<◌, ◌+◌, ◌++◌, ◌∷◌, ◌^◌, [], codes, length};
ghost use Rattle.dover_model.specs.Common.{bound, with_numbers};
ghost use Rattle.line_text.specs.Writing.{most_written};

use dover_model::Ratio;
use line_text::BackLine;
use root_compare::long_bound;

/// Writes the bound on what any schedule is worth where the run completes this value. By a factor it may have 23
/// digits.
pub(crate) fn put_last_bound(head: &mut BackLine, value: u64, ratio: Ratio)
    requires value { value < 10 ^ 18 }
    requires fits { 45 + length head.old ≤ most_written }
    ensures { head.new ≡ with_numbers (codes "bound") (bound ratio value ∷ []) ++ head.old }
{
    head.put_long(long_bound(value, ratio));
    head.put_word(b"bound ");
}

/// Writes the same as a line behind another.
pub(crate) fn put_bound(head: &mut BackLine, value: u64, ratio: Ratio)
    requires value { value < 10 ^ 18 }
    requires fits { 46 + length head.old ≤ most_written }
    ensures is { head.new ≡ with_numbers (10 ∷ codes "bound") (bound ratio value ∷ []) ++ head.old }
    ensures size { length head.new ≤ 46 + length head.old }
{
    head.put_long(long_bound(value, ratio));
    head.put_word(b"\nbound ");
}
