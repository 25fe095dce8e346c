//! Lines of a word and numbers.
ghost use Rattle.std.specs.Prelude.{◌≡◌, ◌<◌, ◌+◌, ◌*◌, ◌++◌, ◌∷◌, [], length, OnOk};
ghost use Rattle.dover_model.specs.Lines.{in_lines};
ghost use Rattle.run_reports.specs.report.Lines.{ratio_line, with_line};

use dover_model::{Memory, Ratio};
use itoa::Buffer;
use line_text::BackLine;

/// Appends the line of this word and these numbers, with a space before each number.
pub fn put_line(text: &mut Vec<u8>, word: &[u8], numbers: &[u64]) -> Result<(), Memory>
    requires { length word.now + 21 * length numbers.now < 160 }
    ensures { OnOk result (text.new.items ≡ with_line text.old.items word.now numbers.now) }
{
    let mut line = BackLine::new();
    line.put_with_wide(word, numbers);
    text.extend_from_slice(line.bytes())?;
    Ok(())
}

/// Appends the line of this word and a number that may be wide.
pub fn put_wide_line(text: &mut Vec<u8>, word: &[u8], number: u128) -> Result<(), Memory>
    ensures { OnOk result (text.new.items ≡ with_line text.old.items word.now (number ∷ [])) }
{
    text.extend_from_slice(word)?;
    text.extend_from_slice(b" ")?;
    text.extend_from_slice(Buffer::new().format(number).as_bytes())?;
    text.extend_from_slice(b"\n")?;
    Ok(())
}

/// Appends the line of a ratio, with its factor where one is declared.
pub fn put_ratio(text: &mut Vec<u8>, k: Ratio) -> Result<(), Memory>
    ensures { OnOk result (text.new.items ≡ text.old.items ++ in_lines (ratio_line k ∷ [])) }
{
    let (p, q) = (u64::from(k.p()), u64::from(k.q()));
    match k.factor() {
        None => put_line(text, b"ratio", &[p, q]),
        Some(factor) => put_line(
            text,
            b"ratio",
            &[p, q, u64::from(factor.b), u64::from(factor.c)],
        ),
    }
}
