//! The labels of the groups, at the left of their lanes.
use crate::lanes::Lanes;
use crate::sheet::Sheet;
use dover_model::Memory;

/// Appends the labels of all groups.
pub fn put_heads(sheet: &mut Sheet, lanes: &Lanes, labels: &[Vec<u8>]) -> Result<(), Memory> {
    for (group, label) in labels.iter().enumerate() {
        put_head(sheet, label, lanes.top(group).saturating_add(12))?;
    }
    Ok(())
}

/// Appends a label at the height y.
fn put_head(sheet: &mut Sheet, label: &[u8], y: u64) -> Result<(), Memory> {
    sheet.put(front(label.len()), &[y])?;
    sheet.put_text(label)?;
    sheet.put_text(b"</text>\n")
}

/// The front of a label of so many letters: more than ten are small, and set into 80 pixels.
fn front(letters: usize) -> &'static [u8] {
    if letters <= 10 {
        return b"<text class='r' x='82' y='@'>";
    }
    b"<text class='s r' x='82' y='@' textLength='80' lengthAdjust='spacingAndGlyphs'>"
}
