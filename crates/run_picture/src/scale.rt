//! Where ticks stand in a picture.
ghost use Rattle.std.specs.Prelude.{◌≤◌};

use run_reports::views::Window;

/// A part of the whole, where the whole is so high.
pub fn scaled(part: u64, whole: u64, high: u64) -> u64
    ensures { result ≤ high }
{
    let height = u128::from(part.min(whole)) * u128::from(high) / u128::from(whole.max(1));
    height.min(u128::from(high)) as u64
}

/// The ticks that a picture shows, over 1,200 pixels.
#[derive(Clone, Copy)]
pub struct Scale {
    /// The first tick.
    pub from: u64,
    /// The tick behind the last one.
    pub until: u64,
}

impl Scale {
    ghost use Rattle.std.specs.Prelude.{◌≤◌};

    /// That of a window.
    pub fn new(window: Window) -> Scale {
        Scale {
            from: window.from,
            until: window.until,
        }
    }

    /// How many ticks are shown.
    pub fn span(self) -> u64 {
        self.until.saturating_sub(self.from)
    }

    /// The pixel of a tick.
    pub fn x_at(self, tick: u64) -> u64
        ensures { result ≤ 1_290 }
    {
        90 + scaled(tick.saturating_sub(self.from), self.span(), 1_200)
    }

    /// The left pixel of the column of a tick, of which there are 200.
    pub fn column_at(self, tick: u64) -> u64
        ensures { result ≤ 1_290 }
    {
        90 + 6 * scaled(tick.saturating_sub(self.from), self.span(), 200)
    }

    /// How many pixels the ticks from one to another take.
    pub fn pixels(self, from: u64, until: u64) -> u64
        ensures { result ≤ 1_290 }
    {
        self.x_at(until).saturating_sub(self.x_at(from))
    }

    /// Some ticks from one to another are shown.
    pub fn meets(self, from: u64, until: u64) -> bool {
        from < self.until && self.from < until
    }

    /// A tick is shown.
    pub fn has(self, tick: u64) -> bool {
        self.from <= tick && tick < self.until
    }
}
