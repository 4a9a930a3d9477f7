//! How a crate uses strings of any bytes as keys.
ghost use Rattle.std.specs.Prelude.{◌≡◌, ◌↔◌, ◌+◌, ◌*◌, ◌≤◌, ℕ, List, length, IsOk, IfOk};
ghost use Rattle.art_bytes.specs.Text.{IsPrefixOf};
ghost use Rattle.art_mapped.specs.Escaped.{escaped_text};
ghost use Rattle.art_mapped.specs.EscapedKey.{escaped_key_text, escaped_key_room};
ghost use Rattle.art_mapped.specs.Mapped.{mapped_text};

use super::*;

/// The key of a name: its bytes, with zeros escaped, and an end.
fn key_of(alloc: Global, name: &[u8]) -> Result<Mapped<Escaped, Vec<u8>>, AllocError>
    ensures { IfOk result (λ key. mapped_text key ≡ escaped_text name.now) }
{
    Mapped::new(alloc, name.to_vec(alloc)?)
}

/// A buffer that was given a name becomes the key of any other that is no longer, and never fails.
fn become_key(looked_up: &mut EscapedKey, name: &[u8]) -> Result<(), AllocError>
    requires { 2 * length name.now + 2 ≤ escaped_key_room looked_up.old }
    ensures key { escaped_key_text looked_up.new ≡ escaped_text name.now }
    ensures always { IsOk result }
{
    looked_up.set(name)
}

/// The prefix that exactly the keys of those names have that begin so.
fn names_with(alloc: Global, front: &[u8]) -> Result<Vec<u8>, AllocError>
    ensures { IfOk result (λ prefix. (name : List ℕ) →
        IsPrefixOf prefix.items (escaped_text name) ↔ IsPrefixOf front.now name) }
{
    escaped_prefix(alloc, front)
}
