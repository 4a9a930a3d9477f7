//! Many entries of a map by bytes, lent into places of a caller.
ghost use Rattle.std.specs.Prelude.{length, take};
ghost use Rattle.art_c_maps.specs.Entries.{entries_in_bytes};
ghost use Rattle.art_c_maps.specs.Lent.{LendsNext};

use crate::batch::next_bytes;
use crate::byte_string::ByteString;
use crate::lent::BytesEntry;
use crate::loan::Loan;
use art_map::Iter;

/// Lends the first of these entries, as many as there are places. Returns how many.
pub(crate) fn lend_entries<'a>(
    mut entries: Iter<'a, ByteString, u64>,
    loan: &Loan<'a>,
    out: &mut [BytesEntry],
) -> usize
    ensures { LendsNext loan.now.life (take (length out.old) (entries_in_bytes entries.entry))
        out.old out.new result }
{
    let room = out.len();
    for index in 0..room {
        let Some((key, value)) = next_bytes(&mut entries, false) else {
            return index;
        };
        out[index] = BytesEntry::of(key, value, loan);
    }
    room
}
