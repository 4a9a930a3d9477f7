//! A route table behind a handle of C.
ghost use Rattle.std.specs.Prelude.{◌≡◌, IsErr, IsOk, None, Some};
ghost use Rattle.std.specs.Option.{option_map};

use crate::handle::Handle;
use crate::held::Held;
use art_c_routes::NumberRoutes;
use std::alloc::{AllocError, Global};
use std::marker::{Model, Send};

/// `art_routes_map` of the header: the address of a boxed table, or null where the handle holds none. For
/// contracts the routes of that table, if there is one.
#[repr(C)]
#[derive(Drop)]
pub struct RoutesHandle {
    inner: Handle,
}

impl Model for RoutesHandle {
    ghost use mathlib.Core.Path.{ap};
    ghost use Rattle.art_c.specs.declared.held.Held.TheVariants.{Routes};
    ghost use Rattle.art_c.specs.Kinds.{AreOfKind, routes_of, routes_row};
    ghost use Rattle.art_c.specs.OfKinds.{HandleOf, handle_back, handle_from, handle_of};

    ghost Value = { HandleOf routes_row.Denot };

    ghost view = { λ handle. handle_of Routes routes_of handle.inner };

    ghost invariant = { λ handle. AreOfKind Routes routes_of handle.inner.held };

    ghost inverse = { λ value. record { inner = handle_from Routes routes_of value } };

    ghost inverse_ok = { λ handle of_kind. ap (λ inner. record { inner = inner })
        (handle_back Routes routes_of handle.inner of_kind) };
}

// Its table may go to another thread with it.
unsafe impl Send for RoutesHandle {}

impl RoutesHandle {
    ghost use Rattle.std.specs.Borrow.{sem};
    ghost use Rattle.art_c.specs.Lending.{LendsRoutes};

    /// The table behind the handle, where it holds one. The handle itself is not written.
    pub(crate) fn lent_mut(&mut self) -> Option<&mut NumberRoutes>
        ensures* writes_back { sem 𝓛 (LendsRoutes self.entry result) }
        ensures table { option_map (λ table. table.now) result ≡ self.old.held }
    {
        self.inner.lent_mut()?.routes_mut()
    }

    /// Gives the handle this table, boxed. Where there is no memory for the box, the handle is as before.
    pub(crate) fn hold(&mut self, alloc: Global, table: NumberRoutes) -> Result<(), AllocError>
        ensures held { IsOk result → self.new.held ≡ Some table }
        ensures refused { IsErr result → self.new.held ≡ self.old.held }
    {
        let boxed = Box::new(alloc, Held::Routes(table))?;
        self.inner.hold(boxed);
        Ok(())
    }

    /// Frees the table, where the handle holds one.
    pub(crate) fn free(&mut self, alloc: Global)
        ensures none_left { self.new.held ≡ None }
    {
        drop(self.inner.take(alloc));
    }
}
