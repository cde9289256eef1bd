// The tags: what each says of its field.
ghost use Rattle.std.specs.Prelude.{◌≡◌, Some};
ghost use Rattle.field.specs.Table.{layout, layout_of};

use crate::{Kind, Layout};

// A line of the table: the kind, the body's length, and the bytes that session, class, cell and value take in it.
fn known(
    kind: Kind,
    length: usize,
    session: usize,
    class: usize,
    cell: usize,
    value: usize,
) -> Option<Layout>
    ensures { result ≡ Some (layout kind length session class cell value) }
{
    Some(Layout {
        kind,
        length,
        session,
        class,
        cell,
        value,
    })
}

// The layout of a tag, by the tag byte.
#[tactic(auto, unfolding(crate::specs::Table::layout_of, crate::specs::Table::find, crate::specs::Table::table))]
pub(crate) fn layout_of(tag: u8) -> Option<Layout>
    ensures { result ≡ layout_of tag }
{
    match tag {
        0x01 => known(Kind::Begin, 1, 1, 0, 0, 0),
        0x02 => known(Kind::Read, 3, 1, 0, 2, 0),
        0x03 => known(Kind::Write, 7, 1, 0, 2, 4),
        0x04 => known(Kind::Seal, 1, 1, 0, 0, 0),
        0x05 => known(Kind::Advance, 1, 1, 0, 0, 0),
        0x06 => known(Kind::Abandon, 1, 1, 0, 0, 0),
        0x08 => known(Kind::StartingCell, 5, 0, 1, 0, 4),
        0x09 => known(Kind::Hold, 3, 1, 0, 2, 0),
        0x00 | 0x07 | 0x0a..=0xff => None,
    }
}
