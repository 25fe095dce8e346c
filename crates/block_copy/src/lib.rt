//! Copies of short texts, without a call.
#![tactic(auto)]

ghost use Rattle.std.specs.Prelude.{◌≡◌, ◌≤◌, ◌+◌, length};

// Copies bytes as two blocks of this size, which may overlap.
#[inline(always)]
fn copy_ends(to: &mut [u8], from: &[u8], size: usize)
    requires same { length to.old ≡ length from.now }
    requires low { size ≤ length from.now }
    requires high { length from.now ≤ size + size }
    ensures { to.new ≡ from.now }
{
    let last = from.len() - size;
    to[..size].copy_from_slice(&from[..size]);
    to[last..].copy_from_slice(&from[last..]);
}

/// Copies bytes. 8 to 64 go as two blocks, since the compiler makes no call of a copy of a known size.
#[inline(always)]
pub fn copy_short(to: &mut [u8], from: &[u8])
    requires { length to.old ≡ length from.now }
    ensures { to.new ≡ from.now }
{
    let size = from.len();
    if size > 64 {
        to.copy_from_slice(from);
    } else if size > 32 {
        copy_ends(to, from, 32);
    } else if size >= 16 {
        copy_ends(to, from, 16);
    } else if size >= 8 {
        copy_ends(to, from, 8);
    } else {
        to.copy_from_slice(from);
    }
}
