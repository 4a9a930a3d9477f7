//! The bytes of the routes around an address that end at one place of its key.
ghost use Rattle.std.specs.Prelude.{◌≡◌, ◌≤◌, IfNone, IfSome};
ghost use Rattle.art_nodes.specs.ChildMap.{IsAscending};
ghost use Rattle.art_routes.specs.Ends.{HasByte, IsLongestEnd, IsNextEnd, NoEndAt, NoEndOf, shorter as shorter_end};

// For the byte of some bits of a stride, from none to seven, that of one bit fewer.
const SHORTER: [u8; 256] = [
    0, 0, 1, 2, 3, 4, 5, 6, 6, 5, 9, 9, 4, 12, 13, 13, 12, 16, 16, 3, 19, 20, 21, 21, 20, 24, 24,
    19, 27, 28, 28, 27, 31, 31, 2, 34, 35, 36, 37, 37, 36, 40, 40, 35, 43, 44, 44, 43, 47, 47, 34,
    50, 51, 52, 52, 51, 55, 55, 50, 58, 59, 59, 58, 62, 62, 1, 65, 66, 67, 68, 69, 69, 68, 72, 72,
    67, 75, 76, 76, 75, 79, 79, 66, 82, 83, 84, 84, 83, 87, 87, 82, 90, 91, 91, 90, 94, 94, 65, 97,
    98, 99, 100, 100, 99, 103, 103, 98, 106, 107, 107, 106, 110, 110, 97, 113, 114, 115, 115, 114,
    118, 118, 113, 121, 122, 122, 121, 125, 125, 0, 128, 129, 130, 131, 132, 133, 133, 132, 136,
    136, 131, 139, 140, 140, 139, 143, 143, 130, 146, 147, 148, 148, 147, 151, 151, 146, 154, 155,
    155, 154, 158, 158, 129, 161, 162, 163, 164, 164, 163, 167, 167, 162, 170, 171, 171, 170, 174,
    174, 161, 177, 178, 179, 179, 178, 182, 182, 177, 185, 186, 186, 185, 189, 189, 128, 192, 193,
    194, 195, 196, 196, 195, 199, 199, 194, 202, 203, 203, 202, 206, 206, 193, 209, 210, 211, 211,
    210, 214, 214, 209, 217, 218, 218, 217, 221, 221, 192, 224, 225, 226, 227, 227, 226, 230, 230,
    225, 233, 234, 234, 233, 237, 237, 224, 240, 241, 242, 242, 241, 245, 245, 240, 248, 249, 249,
    248, 252, 252, 0,
];

/// The byte of one bit fewer of the same stride.
pub(crate) fn shorter(end: u8) -> u8
    ensures { result ≡ shorter_end 1 end }
{
    SHORTER[usize::from(end)]
}

/// The byte of the longest route around an address that may end at this place of its key.
pub(crate) fn longest_end(key: &[u8], place: usize) -> Option<u8>
    requires place { place ≤ 20 }
    ensures none { IfNone result (NoEndAt key.now place) }
    ensures some { IfSome result (IsLongestEnd key.now place) }
{
    if place == 0 {
        return None;
    }
    if place + 1 < key.len() {
        Some(shorter(key[place]))
    } else if place < key.len() {
        Some(key[place])
    } else {
        None
    }
}

/// The first of a byte and those of ever fewer bits of the same stride that is one of these bytes.
///
/// Looks at each of them once, from the last on.
pub(crate) fn next_end(bytes: &[u8], longest: u8) -> Option<u8>
    requires ascending { IsAscending bytes.now }
    ensures none { IfNone result (NoEndOf (HasByte bytes.now) longest) }
    ensures some { IfSome result (IsNextEnd (HasByte bytes.now) longest) }
{
    let mut end = longest;
    let mut count = bytes.len();
    'down: while count > 0 {
        let byte = bytes[count - 1];
        if byte == end {
            return Some(end);
        }
        if end < byte {
            count -= 1;
        } else {
            end = shorter(end);
        }
    }
    None
}
