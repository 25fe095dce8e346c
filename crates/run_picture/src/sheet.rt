//! A picture that is being drawn.
use crate::scale::Scale;
use dover_model::Memory;
use run_reports::views::template::{put, put_wide};
use std::alloc::Global;

/// The text of a picture so far, and the ticks that it shows.
#[derive(Drop)]
pub struct Sheet {
    text: Vec<u8>,
    /// The ticks.
    pub scale: Scale,
}

impl Sheet {
    /// An empty one.
    pub fn new(alloc: Global, scale: Scale) -> Sheet {
        Sheet {
            text: Vec::new(alloc),
            scale,
        }
    }

    /// How many bytes it has.
    pub fn len(&self) -> usize {
        self.text.len()
    }

    /// Its text.
    pub fn into_text(self) -> Vec<u8> {
        self.text
    }

    /// Appends these bytes.
    pub fn put_text(&mut self, bytes: &[u8]) -> Result<(), Memory> {
        self.text.extend_from_slice(bytes)?;
        Ok(())
    }

    /// Appends the template, with these numbers in place of its `@`, in order.
    pub fn put(&mut self, template: &[u8], numbers: &[u64]) -> Result<(), Memory> {
        put(&mut self.text, template, numbers)
    }

    /// Appends a number that may be wide.
    pub fn put_wide(&mut self, number: u128) -> Result<(), Memory> {
        put_wide(&mut self.text, number)
    }

    /// Appends the bar of these ticks around the height y, so long at least, where it has a length.
    pub fn put_bar(&mut self, least: u64, from: u64, until: u64, y: u64) -> Result<(), Memory> {
        let long = self.scale.pixels(from, until).max(least);
        if long == 0 {
            return Ok(());
        }
        self.put(b"M@ @h@", &[self.scale.x_at(from), y, long])
    }

    /// Appends the front of bars of this class, so high.
    pub fn put_bars(&mut self, class: u8, high: u64) -> Result<(), Memory> {
        self.put_text(b"<path class='")?;
        self.put_text(&[class])?;
        self.put(b"' stroke-width='@' d='", &[high])
    }

    /// Appends the end of bars.
    pub fn put_end(&mut self) -> Result<(), Memory> {
        self.put_text(b"'/>\n")
    }
}
