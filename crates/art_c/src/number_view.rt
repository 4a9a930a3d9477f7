//! A look at a map by numbers, for C.
ghost use Rattle.std.specs.Prelude.{◌≡◌};
ghost use Rattle.std.specs.Option.{option_map};
ghost use Rattle.std.specs.Ordering.{nat_cmp};
ghost use Rattle.art_c.specs.Handles.{held_entries};
ghost use Rattle.art_c_maps.specs.Entries.{entries_from};
ghost use Rattle.art_c_maps.specs.Lent.{LendsRun};

use crate::view::View;
use art_c_maps::{NumberMap, NumberRun};
use std::marker::{Model, Send};

/// A copy of an `art_u64_map` of the header, by which its map is only read: the address of the map, or
/// null. For contracts the entries of that map, if there is one. While there is such a copy no call
/// changes the map. Each thread may have one of its own.
#[repr(C)]
#[derive(Drop)]
pub struct NumberView {
    inner: View,
}

impl Model for NumberView {
    ghost use mathlib.Core.Path.{ap};
    ghost use Rattle.art_c.specs.declared.held.Held.TheVariants.{Numbers};
    ghost use Rattle.art_c.specs.Kinds.{AreOfKind, numbers_of, numbers_row};
    ghost use Rattle.art_c.specs.OfKinds.{ViewOf, coded_view, view_back, view_from, view_of};

    ghost Value = { ViewOf numbers_row.Denot };

    ghost coded = { coded_view numbers_row.coded };

    ghost view = { λ view. view_of Numbers numbers_of view.inner };

    ghost invariant = { λ view. AreOfKind Numbers numbers_of view.inner.seen };

    ghost inverse = { λ value. record { inner = view_from Numbers numbers_of value } };

    ghost inverse_ok = { λ view of_kind. ap (λ inner. record { inner = inner })
        (view_back Numbers numbers_of view.inner of_kind) };
}

// Its map may go to another thread with it.
unsafe impl Send for NumberView {}

impl NumberView {
    ghost use Rattle.std.specs.Borrow.{sem};
    ghost use Rattle.art_c.specs.ViewEnds.{NumbersEndAsTheyWere};

    /// The map, where there is one.
    pub(crate) fn lent(&mut self) -> Option<&NumberMap>
        ensures* same { sem 𝓛 (NumbersEndAsTheyWere self.entry) }
        ensures map { option_map (λ map. map.now) result ≡ self.old.seen }
    {
        self.inner.lent()?.numbers()
    }

    /// Lends the entries at a key or after it, to the end of their page, for as long as C lends the map.
    pub(crate) fn lend_run(&mut self, from: u64, inclusive: bool) -> (NumberRun, usize)
        ensures { LendsRun self.old.life (entries_from nat_cmp inclusive from (held_entries self.old.seen))
            result.0 result.1 × (self.new ≡ self.old) }
    {
        self.inner.lend_run(from, inclusive)
    }
}
