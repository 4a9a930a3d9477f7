//! A map by bytes behind a handle of C.
ghost use Rattle.std.specs.Prelude.{◌≡◌, IsErr, IsOk, None, Some};
ghost use Rattle.std.specs.Option.{option_map};

use crate::handle::Handle;
use crate::held::Held;
use art_c_maps::BytesMap;
use std::alloc::{AllocError, Global};
use std::marker::{Model, Send};

/// `art_bytes_map` of the header: the address of a boxed map, or null where the handle holds none. For
/// contracts the entries of that map, if there is one.
#[repr(C)]
#[derive(Drop)]
pub struct BytesHandle {
    inner: Handle,
}

impl Model for BytesHandle {
    ghost use mathlib.Core.Path.{ap};
    ghost use Rattle.art_c.specs.declared.held.Held.TheVariants.{Bytes};
    ghost use Rattle.art_c.specs.Kinds.{AreOfKind, bytes_of, bytes_row};
    ghost use Rattle.art_c.specs.OfKinds.{HandleOf, handle_back, handle_from, handle_of};

    ghost Value = { HandleOf bytes_row.Denot };

    ghost view = { λ handle. handle_of Bytes bytes_of handle.inner };

    ghost invariant = { λ handle. AreOfKind Bytes bytes_of handle.inner.held };

    ghost inverse = { λ value. record { inner = handle_from Bytes bytes_of value } };

    ghost inverse_ok = { λ handle of_kind. ap (λ inner. record { inner = inner })
        (handle_back Bytes bytes_of handle.inner of_kind) };
}

// Its map may go to another thread with it.
unsafe impl Send for BytesHandle {}

impl BytesHandle {
    ghost use Rattle.std.specs.Borrow.{sem};
    ghost use Rattle.art_c.specs.Lending.{LendsBytes};

    /// The map behind the handle, where it holds one. The handle itself is not written.
    pub(crate) fn lent_mut(&mut self) -> Option<&mut BytesMap>
        ensures* writes_back { sem 𝓛 (LendsBytes self.entry result) }
        ensures map { option_map (λ map. map.now) result ≡ self.old.held }
    {
        self.inner.lent_mut()?.bytes_mut()
    }

    /// Gives the handle this map, boxed. Where there is no memory for the box, the handle is as before.
    pub(crate) fn hold(&mut self, alloc: Global, map: BytesMap) -> Result<(), AllocError>
        ensures held { IsOk result → self.new.held ≡ Some map }
        ensures refused { IsErr result → self.new.held ≡ self.old.held }
    {
        let boxed = Box::new(alloc, Held::Bytes(map))?;
        self.inner.hold(boxed);
        Ok(())
    }

    /// Frees the map, where the handle holds one.
    pub(crate) fn free(&mut self, alloc: Global)
        ensures none_left { self.new.held ≡ None }
    {
        drop(self.inner.take(alloc));
    }
}
