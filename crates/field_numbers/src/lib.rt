// The reader and the writer of a field by numbers and byte slices, as C has them: what is read is left in numbers that the caller lends.
#![tactic(auto)]

ghost use Rattle.std.specs.Prelude.{◌≡◌};
ghost use Rattle.field.specs.Field.{call, reading_at, write_reply, writing};
ghost use Rattle.field.specs.Exported.{lent, read_reply, handing};

use field::{Call, read_field, write_field};

// Reads the field at `place`. With 100 the lent numbers are the call's, and `length` is the field's. With 106, 10, 11 and 12 they are as
// before; the place of the refused field's first byte is `place`. Each is lent by itself: so C hands them over (c_api: rukkanei_field_read).
#[tactic(auto, unfolding(field::specs::Exported::handing))]
pub fn read(
    bytes: &[u8],
    place: usize,
    tag: &mut u8,
    session: &mut u8,
    class: &mut u8,
    cell: &mut u16,
    value: &mut u32,
    length: &mut usize,
) -> u8
    ensures { read_reply result
        (lent tag.new session.new class.new cell.new value.new length.new)
        ≡ handing (reading_at bytes.now place)
        (lent tag.old session.old class.old cell.old value.old length.old) }
{
    match read_field(bytes, place) {
        Ok(Some(found)) => {
            *tag = found.call.tag;
            *session = found.call.session;
            *class = found.call.class;
            *cell = found.call.cell;
            *value = found.call.value;
            *length = found.length;
            field::DONE
        }
        Ok(None) => field::END_OF_FIELDS,
        Err(refused) => refused.refusal.number(),
    }
}

// Writes the field of a call, given as numbers, at the front of `target`. With 100 `length` is the field's. With 11 and 13 it is 0 and the
// target is as before. The numbers stand one by one, as C gives them (c_api: rukkanei_field_write).
pub fn write(
    target: &mut [u8],
    tag: u8,
    session: u8,
    class: u8,
    cell: u16,
    value: u32,
    length: &mut usize,
) -> u8
    ensures { write_reply result length.new target.new
        ≡ writing target.old (call tag session class cell value) }
{
    let call = Call {
        tag,
        session,
        class,
        cell,
        value,
    };
    match write_field(target, call) {
        Ok(n) => {
            *length = n;
            field::DONE
        }
        Err(refusal) => {
            *length = 0;
            refusal.number()
        }
    }
}
