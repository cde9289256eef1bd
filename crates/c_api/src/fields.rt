// The reader and the writer for makers' firmware in C, which include/rukkanei.h declares: numbers and byte slices, and no enum.
ghost use Rattle.std.specs.Prelude.{◌≡◌};
ghost use Rattle.field.specs.Field.{call, reading_at, write_reply, writing};
ghost use Rattle.field.specs.Exported.{lent, read_reply, handing};

// Reads the field at `place`. With 100 the lent numbers are the call's, and `length` is the field's. With 106, 10, 11 and 12 they are as
// before; the place of the refused field's first byte is `place`.
#[unsafe(no_mangle)]
pub extern "C" fn rukkanei_field_read(
    bytes: &[u8],
    place: usize,
    tag: &mut u8,
    session: &mut u8,
    class: &mut u8,
    cell: &mut u16,
    value: &mut u32,
    length: &mut usize,
) -> u8
    ensures { read_reply result
        (lent tag.new session.new class.new cell.new value.new length.new)
        ≡ handing (reading_at bytes.now place)
        (lent tag.old session.old class.old cell.old value.old length.old) }
{
    field_numbers::read(bytes, place, tag, session, class, cell, value, length)
}

// Writes the field of a call, given as numbers, at the front of `target`. With 100 `length` is the field's. With 11 and 13 it is 0 and the
// target is as before.
#[unsafe(no_mangle)]
pub extern "C" fn rukkanei_field_write(
    target: &mut [u8],
    tag: u8,
    session: u8,
    class: u8,
    cell: u16,
    value: u32,
    length: &mut usize,
) -> u8
    ensures { write_reply result length.new target.new
        ≡ writing target.old (call tag session class cell value) }
{
    field_numbers::write(target, tag, session, class, cell, value, length)
}
