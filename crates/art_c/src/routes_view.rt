//! A look at a route table, for C.
ghost use Rattle.std.specs.Prelude.{◌≡◌};
ghost use Rattle.std.specs.Option.{option_map};

use crate::view::View;
use art_c_routes::NumberRoutes;
use std::marker::{Model, Send};

/// A copy of an `art_routes_map` of the header, by which its table is only read: the address of the table,
/// or null. For contracts the routes of that table, if there is one. While there is such a copy no call
/// changes the table. Each thread may have one of its own.
#[repr(C)]
#[derive(Drop)]
pub struct RoutesView {
    inner: View,
}

impl Model for RoutesView {
    ghost use mathlib.Core.Path.{ap};
    ghost use Rattle.art_c.specs.declared.held.Held.TheVariants.{Routes};
    ghost use Rattle.art_c.specs.Kinds.{AreOfKind, routes_of, routes_row};
    ghost use Rattle.art_c.specs.OfKinds.{ViewOf, coded_view, view_back, view_from, view_of};

    ghost Value = { ViewOf routes_row.Denot };

    ghost coded = { coded_view routes_row.coded };

    ghost view = { λ view. view_of Routes routes_of view.inner };

    ghost invariant = { λ view. AreOfKind Routes routes_of view.inner.seen };

    ghost inverse = { λ value. record { inner = view_from Routes routes_of value } };

    ghost inverse_ok = { λ view of_kind. ap (λ inner. record { inner = inner })
        (view_back Routes routes_of view.inner of_kind) };
}

// Its table may go to another thread with it.
unsafe impl Send for RoutesView {}

impl RoutesView {
    ghost use Rattle.std.specs.Borrow.{sem};
    ghost use Rattle.art_c.specs.ViewEnds.{RoutesEndAsTheyWere};

    /// The table, where there is one.
    pub(crate) fn lent(&mut self) -> Option<&NumberRoutes>
        ensures* same { sem 𝓛 (RoutesEndAsTheyWere self.entry) }
        ensures table { option_map (λ table. table.now) result ≡ self.old.seen }
    {
        self.inner.lent()?.routes()
    }
}
