//! A look at what lies behind a handle of C, whatever its kind.
ghost use Rattle.std.specs.Prelude.{◌≡◌, Option, length};
ghost use Rattle.std.specs.Option.{option_map};
ghost use Rattle.std.specs.Ordering.{nat_cmp};
ghost use Rattle.art_bytes.specs.Text.{text_order};
ghost use Rattle.art_c.specs.Handles.{coded_behind, held_entries, held_row};
ghost use Rattle.art_c.specs.Kinds.{bytes_of, found_in, numbers_of};
ghost use Rattle.art_c.specs.Views.{coded_share, sees};
ghost use Rattle.art_c_maps.specs.Entries.{entries_from, entries_with_prefix, next_entries};
ghost use Rattle.art_c_maps.specs.Lent.{LendsNext, LendsRun};
ghost use base.Fml.{Lft, Share as LifeShare};
ghost use Rattle.art_c_maps.specs.Loans.{coded_life};

use crate::held::Held;
use art_c_maps::{BytesEntry, Loan, NumberRun};
use std::marker::{Model, PhantomData, Send};
use std::ptr::null;

/// A copy of a handle, by which what it holds is only read: its address, or null. For contracts what is there,
/// if anything. While there is such a copy no call changes it. Each thread may have one of its own. The views of
/// the exports are each a `View` of one kind.
#[repr(C)]
#[derive(Drop)]
pub struct View {
    ptr: *const u8,
    pub ghost seen: { Option held_row.Denot } by { coded_behind held_row },
    pub ghost life: { Lft } by { coded_life },
    ghost share: { LifeShare } by { coded_share },
}

impl Model for View {
    ghost also_owns = { λ view. sees held_row view.life view.share view.ptr view.seen };
}

// What it sees may go to another thread with it.
unsafe impl Send for View {}

impl View {
    ghost use Rattle.std.specs.Borrow.{sem};
    ghost use Rattle.art_c.specs.ViewEnds.{EndsAsItWas};

    /// What is there, if anything.
    pub(crate) fn lent(&mut self) -> Option<&Held>
        ensures* same { sem 𝓛 (EndsAsItWas self.entry) }
        ensures seen { option_map (λ seen. seen.now) result ≡ self.old.seen }
    {
        let ptr = self.ptr;
        if ptr.is_null() {
            None
        } else {
            Some(unsafe { &*(ptr as *const Held) })
        }
    }

    /// Lends the entries of a map by numbers at a key or after it, to the end of their page, for as long as C
    /// lends what is there.
    pub(crate) fn lend_run(&mut self, from: u64, inclusive: bool) -> (NumberRun, usize)
        ensures { LendsRun self.old.life
            (entries_from nat_cmp inclusive from (held_entries (found_in numbers_of self.old.seen)))
            result.0 result.1 × (self.new ≡ self.old) }
    {
        let ptr = self.ptr;
        if ptr.is_null() {
            (NumberRun { ptr: null() }, 0)
        } else {
            Held::lend_run(
                unsafe { &*(ptr as *const Held) },
                Loan {
                    marker: PhantomData,
                },
                from,
                inclusive,
            )
        }
    }

    /// Lends the first entries of a map by bytes at a key or after it, of those with a prefix, as many as there
    /// are places, for as long as C lends what is there. Returns how many.
    pub(crate) fn lend_next(
        &mut self,
        prefix: &[u8],
        from: &[u8],
        inclusive: bool,
        out: &mut [BytesEntry],
    ) -> usize
        ensures { LendsNext self.old.life (next_entries text_order (length out.old) inclusive from.now
            (entries_with_prefix prefix.now (held_entries (found_in bytes_of self.old.seen))))
            out.old out.new result × (self.new ≡ self.old) }
    {
        let ptr = self.ptr;
        if ptr.is_null() {
            0
        } else {
            Held::lend_next(
                unsafe { &*(ptr as *const Held) },
                Loan {
                    marker: PhantomData,
                },
                prefix,
                from,
                inclusive,
                out,
            )
        }
    }
}
