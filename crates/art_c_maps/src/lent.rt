//! Entries lent to C: their addresses, and what lies there.
ghost use Rattle.std.specs.Prelude.{◌≡◌, List, ℕ};
ghost use Rattle.art_c_maps.specs.Loans.{coded_life, entry_row, lent_run};
ghost use base.Fml.{Lft};
ghost use denote.Builtin.{u8};

use crate::loan::Loan;
use std::marker::Model;

/// The address of entries of a [`NumberMap`](crate::NumberMap), which lie one behind another, each its key and
/// then its value. For contracts these entries, and for how long they are lent. Where there are none, any
/// address.
#[repr(C)]
#[derive(Drop)]
pub struct NumberRun {
    pub ptr: *const u8,
    pub ghost entries: { List (ℕ × ℕ) },
    pub ghost life: { Lft } by { coded_life },
}

impl Model for NumberRun {
    ghost also_owns = { λ run. lent_run entry_row run.life run.ptr run.entries };
}

impl NumberRun {
    /// The address of these entries.
    pub fn of<'a>(entries: &'a [(u64, u64)], loan: Loan<'a>) -> NumberRun
        ensures { (result.entries ≡ entries.now) × (result.life ≡ loan.entry.life) }
    {
        NumberRun {
            ptr: entries.as_ptr() as *const u8,
        }
    }
}

/// An entry of a [`BytesMap`](crate::BytesMap): the address of its key and how many bytes this has, and the
/// value. For contracts the bytes there, and for how long they are lent. Where there are none, any address.
#[repr(C)]
#[derive(Drop)]
pub struct BytesEntry {
    key: *const u8,
    pub key_len: usize,
    pub value: u64,
    pub ghost text: { List ℕ },
    pub ghost life: { Lft } by { coded_life },
}

impl Model for BytesEntry {
    ghost also_owns = { λ entry. lent_run u8 entry.life entry.key entry.text };
}

impl BytesEntry {
    ghost use Rattle.art_c_maps.specs.Lent.{IsLent};

    /// The address of this key, and the value.
    pub(crate) fn of<'a>(key: &'a [u8], value: u64, loan: &Loan<'a>) -> BytesEntry
        ensures { IsLent loan.now.life (key.now, value) result }
    {
        BytesEntry {
            key: key.as_ptr() as *const u8,
            key_len: key.len(),
            value,
        }
    }
}
