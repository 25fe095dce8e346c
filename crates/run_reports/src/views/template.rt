//! Texts from templates.
ghost use Rattle.std.specs.Prelude.{◌≡◌, ◌≤◌, ◌<◌, ◌^◌, ◌+◌, ◌++◌, ℕ, List, drop, decimal, OnOk};
ghost use Rattle.run_reports.specs.views.Templates.{filled, first_numeral, left_behind, part};

use dover_model::Memory;
use itoa::Buffer;

/// Appends the template, with these numbers in place of its `@`, in order.
pub fn put(text: &mut Vec<u8>, template: &[u8], numbers: &[u64]) -> Result<(), Memory>
    ensures { OnOk result (text.new.items ≡ text.old.items ++ filled template.now numbers.now) }
{
    let mut next = 0;
    for byte in template {
        put_part(text, *byte, numbers, next)?;
        next = place_behind(*byte, next);
    }
    Ok(())
}

/// Appends what stands for this byte, where so many numbers are used.
fn put_part(text: &mut Vec<u8>, byte: u8, numbers: &[u64], next: usize) -> Result<(), Memory>
    ensures { OnOk result (text.new.items ≡ text.old.items ++ part byte (drop next numbers.now)) }
{
    if byte == b'@' {
        return put_first(text, numbers, next);
    }
    text.push(byte)?;
    Ok(())
}

/// Appends the number at this place, if there is one.
fn put_first(text: &mut Vec<u8>, numbers: &[u64], next: usize) -> Result<(), Memory>
    ensures { OnOk result (text.new.items ≡ text.old.items ++ first_numeral (drop next numbers.now)) }
{
    if next < numbers.len() {
        text.extend_from_slice(Buffer::new().format(numbers[next]).as_bytes())?;
    }
    Ok(())
}

/// How many numbers are used behind this byte.
fn place_behind(byte: u8, next: usize) -> usize
    requires { next < 2 ^ 63 }
    ensures is { (ns : List ℕ) → drop result ns ≡ left_behind byte (drop next ns) }
    ensures few { result ≤ next + 1 }
{
    if byte == b'@' { next + 1 } else { next }
}

/// Appends a number that may be wide.
pub fn put_wide(text: &mut Vec<u8>, number: u128) -> Result<(), Memory>
    ensures { OnOk result (text.new.items ≡ text.old.items ++ decimal number) }
{
    text.extend_from_slice(Buffer::new().format(number).as_bytes())?;
    Ok(())
}
