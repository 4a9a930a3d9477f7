//! What may lie behind a handle of C: a map or a table of one of the kinds.
ghost use Rattle.std.specs.Prelude.{◌≡◌, length};
ghost use Rattle.std.specs.Option.{option_map};
ghost use Rattle.std.specs.Ordering.{nat_cmp};
ghost use Rattle.art_bytes.specs.Text.{text_order};
ghost use Rattle.art_c.specs.Handles.{held_entries};
ghost use Rattle.art_c_maps.specs.Entries.{entries_from, entries_with_prefix, next_entries};
ghost use Rattle.art_c_maps.specs.Lent.{LendsNext, LendsRun};

use art_c_maps::{BytesEntry, BytesMap, Loan, NumberMap, NumberRun};
use art_c_routes::NumberRoutes;

/// A map or a table of one of the kinds.
#[derive(Drop)]
pub enum Held {
    Bytes(BytesMap),
    Numbers(NumberMap),
    Routes(NumberRoutes),
}

impl Held {
    ghost use Rattle.std.specs.Borrow.{LendsIf, sem};
    ghost use Rattle.art_c.specs.contracts.held.Held.{the_row};
    ghost use Rattle.art_c.specs.declared.held.Held.TheVariants.{Bytes, Numbers, Routes};
    ghost use Rattle.art_c.specs.Kinds.{bytes_of, bytes_row, numbers_of, numbers_row, routes_of, routes_row};

    /// The map by bytes, if it is one.
    pub(crate) fn bytes(&self) -> Option<&BytesMap>
        ensures { option_map (λ map. map.now) result ≡ bytes_of self.now }
    {
        if let Held::Bytes(map) = self {
            Some(map)
        } else {
            None
        }
    }

    /// The map by bytes to be changed, if it is one.
    pub(crate) fn bytes_mut(&mut self) -> Option<&mut BytesMap>
        ensures* writes_back { sem 𝓛 (LendsIf the_row bytes_row self.entry result Bytes self.old) }
        ensures map { option_map (λ map. map.now) result ≡ bytes_of self.old }
    {
        if let Held::Bytes(map) = self {
            Some(map)
        } else {
            None
        }
    }

    /// The map by numbers, if it is one.
    pub(crate) fn numbers(&self) -> Option<&NumberMap>
        ensures { option_map (λ map. map.now) result ≡ numbers_of self.now }
    {
        if let Held::Numbers(map) = self {
            Some(map)
        } else {
            None
        }
    }

    /// The map by numbers to be changed, if it is one.
    pub(crate) fn numbers_mut(&mut self) -> Option<&mut NumberMap>
        ensures* writes_back { sem 𝓛 (LendsIf the_row numbers_row self.entry result Numbers self.old) }
        ensures map { option_map (λ map. map.now) result ≡ numbers_of self.old }
    {
        if let Held::Numbers(map) = self {
            Some(map)
        } else {
            None
        }
    }

    /// The route table, if it is one.
    pub(crate) fn routes(&self) -> Option<&NumberRoutes>
        ensures { option_map (λ table. table.now) result ≡ routes_of self.now }
    {
        if let Held::Routes(table) = self {
            Some(table)
        } else {
            None
        }
    }

    /// The route table to be changed, if it is one.
    pub(crate) fn routes_mut(&mut self) -> Option<&mut NumberRoutes>
        ensures* writes_back { sem 𝓛 (LendsIf the_row routes_row self.entry result Routes self.old) }
        ensures table { option_map (λ table. table.now) result ≡ routes_of self.old }
    {
        if let Held::Routes(table) = self {
            Some(table)
        } else {
            None
        }
    }

    /// Lends the entries of a map by numbers at a key or after it, to the end of their page: none, if it is no
    /// such map.
    pub(crate) fn lend_run<'a>(
        &'a self,
        loan: Loan<'a>,
        from: u64,
        inclusive: bool,
    ) -> (NumberRun, usize)
        ensures { LendsRun loan.entry.life
            (entries_from nat_cmp inclusive from (held_entries (numbers_of self.now))) result.0 result.1 }
    {
        match self.numbers() {
            Some(map) => map.lend_run(loan, from, inclusive),
            None => (NumberRun::of(&[], loan), 0),
        }
    }

    /// Lends the first entries of a map by bytes at a key or after it, of those with a prefix, as many as there
    /// are places. Returns how many: none, if it is no such map.
    pub(crate) fn lend_next<'a>(
        &'a self,
        loan: Loan<'a>,
        prefix: &[u8],
        from: &[u8],
        inclusive: bool,
        out: &mut [BytesEntry],
    ) -> usize
        ensures { LendsNext loan.entry.life (next_entries text_order (length out.old) inclusive from.now
            (entries_with_prefix prefix.now (held_entries (bytes_of self.now)))) out.old out.new result }
    {
        match self.bytes() {
            Some(map) => map.lend_next(loan, prefix, from, inclusive, out),
            None => 0,
        }
    }
}
