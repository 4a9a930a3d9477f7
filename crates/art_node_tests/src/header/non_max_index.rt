//! Which numbers are indices.
ghost use Rattle.std.specs.Prelude.{◌<◌, ◌↔◌, IsTrue};

use art_header::NonMaxIndex;

// Indices are ordered as their numbers.
fn is_below(a: NonMaxIndex, b: NonMaxIndex) -> bool
    ensures { IsTrue result ↔ (a < b) }
{
    a < b
}
