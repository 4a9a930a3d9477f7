//! A look at a map by bytes, for C.
ghost use Rattle.std.specs.Prelude.{◌≡◌, length};
ghost use Rattle.std.specs.Option.{option_map};
ghost use Rattle.art_bytes.specs.Text.{text_order};
ghost use Rattle.art_c.specs.Handles.{held_entries};
ghost use Rattle.art_c_maps.specs.Entries.{entries_with_prefix, next_entries};
ghost use Rattle.art_c_maps.specs.Lent.{LendsNext};

use crate::view::View;
use art_c_maps::{BytesEntry, BytesMap};
use std::marker::{Model, Send};

/// A copy of an `art_bytes_map` of the header, by which its map is only read: the address of the map, or
/// null. For contracts the entries of that map, if there is one. While there is such a copy no call
/// changes the map. Each thread may have one of its own.
#[repr(C)]
#[derive(Drop)]
pub struct BytesView {
    inner: View,
}

impl Model for BytesView {
    ghost use mathlib.Core.Path.{ap};
    ghost use Rattle.art_c.specs.declared.held.Held.TheVariants.{Bytes};
    ghost use Rattle.art_c.specs.Kinds.{AreOfKind, bytes_of, bytes_row};
    ghost use Rattle.art_c.specs.OfKinds.{ViewOf, coded_view, view_back, view_from, view_of};

    ghost Value = { ViewOf bytes_row.Denot };

    ghost coded = { coded_view bytes_row.coded };

    ghost view = { λ view. view_of Bytes bytes_of view.inner };

    ghost invariant = { λ view. AreOfKind Bytes bytes_of view.inner.seen };

    ghost inverse = { λ value. record { inner = view_from Bytes bytes_of value } };

    ghost inverse_ok = { λ view of_kind. ap (λ inner. record { inner = inner })
        (view_back Bytes bytes_of view.inner of_kind) };
}

// Its map may go to another thread with it.
unsafe impl Send for BytesView {}

impl BytesView {
    ghost use Rattle.std.specs.Borrow.{sem};
    ghost use Rattle.art_c.specs.ViewEnds.{BytesEndAsTheyWere};

    /// The map, where there is one.
    pub(crate) fn lent(&mut self) -> Option<&BytesMap>
        ensures* same { sem 𝓛 (BytesEndAsTheyWere self.entry) }
        ensures map { option_map (λ map. map.now) result ≡ self.old.seen }
    {
        self.inner.lent()?.bytes()
    }

    /// Lends the first entries at a key or after it, of those with a prefix, as many as there are places, for
    /// as long as C lends the map. Returns how many.
    pub(crate) fn lend_next(
        &mut self,
        prefix: &[u8],
        from: &[u8],
        inclusive: bool,
        out: &mut [BytesEntry],
    ) -> usize
        ensures { LendsNext self.old.life (next_entries text_order (length out.old) inclusive from.now
            (entries_with_prefix prefix.now (held_entries self.old.seen))) out.old out.new result
            × (self.new ≡ self.old) }
    {
        self.inner.lend_next(prefix, from, inclusive, out)
    }
}
