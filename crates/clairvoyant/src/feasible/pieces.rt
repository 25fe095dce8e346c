//! Stretches of a schedule that grows.
ghost use Rattle.std.specs.Prelude.{◌≡◌, ℕ, ◌+◌, ◌-◌, ◌<◌, ◌≤◌, List, ◌++◌, length, replicate, false, slice_get, OnOk};
ghost use Rattle.std.specs.Option.{option_map_or};
ghost use Rattle.dover_model.specs.Common.{idle, stretches};
ghost use Rattle.clairvoyant.specs.feasible.Progress.{goes_on};

use dover_model::{Memory, Piece};

/// Whether the last stretch is of the same job, and ends as this one begins.
fn goes_on(pieces: &[Piece], piece: &Piece) -> bool
    ensures { result ≡ option_map_or (goes_on piece.now) (slice_get pieces.now (length pieces.now - 1)) false }
{
    match pieces.last() {
        Some(last) => last.number == piece.number && last.until == piece.from,
        None => false,
    }
}

/// Puts a stretch behind the others: where the last one ends as it begins and is of the same job, the two are one.
///
/// # Errors
///
/// `Memory` where there is none.
pub fn add_piece(pieces: &mut Vec<Piece>, piece: Piece) -> Result<(), Memory>
    requires some { piece.from < piece.until }
    requires job { piece.number ≡ idle → ⊥ }
    ensures stretches { (s : List ℕ) → length s ≡ piece.from → pieces.old.items ≡ stretches s →
        OnOk result (pieces.new.items ≡ stretches (s ++ replicate (piece.until - piece.from) piece.number)) }
    ensures count { OnOk result (length pieces.new.items ≤ length pieces.old.items + 1) }
{
    if goes_on(pieces, &piece) {
        let last = pieces.len() - 1;
        pieces[last].until = piece.until;
        return Ok(());
    }
    pieces.push(piece)?;
    Ok(())
}
