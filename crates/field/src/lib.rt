// The call fields of document 01, section "Call fields", and hold's (document 02, Paper 4): the reader and the writer of one field, and the types that
// they speak of. Crate c_api has the same two for C.
#![tactic(auto)]

mod tags;

ghost use Rattle.std.specs.Prelude.{◌≡◌, ◌+◌, ◌≤◌, length};
ghost use Rattle.std.proofs.lemmas.List.Edits.{sets};
ghost use Rattle.field.specs.Table.{Proper};
ghost use Rattle.field.specs.Answer.{number_of};
ghost use Rattle.field.specs.Field.{refused, call_at, reading_at, body_of, reply_of, writing};

// What a field is.
#[derive(Clone, Copy)]
pub enum Kind {
    Begin,
    Read,
    Write,
    Seal,
    Advance,
    Abandon,
    StartingCell,
    Hold,
}

// What a tag says of its field: the kind, the body's length, and the bytes that each number takes in the body. A number that the tag does
// not carry takes 0. The numbers stand in the order of this struct.
#[derive(Clone, Copy)]
pub struct Layout {
    pub kind: Kind,
    pub length: usize,
    pub session: usize,
    pub class: usize,
    pub cell: usize,
    pub value: usize,
}

// A call, or a starting cell, as numbers. `value` is document 01's figure.
#[derive(Clone, Copy)]
pub struct Call {
    pub tag: u8,
    pub session: u8,
    pub class: u8,
    pub cell: u16,
    pub value: u32,
}

// A field: what it is, its numbers, and its length in bytes.
#[derive(Clone, Copy)]
pub struct Field {
    pub kind: Kind,
    pub call: Call,
    pub length: usize,
}

// Why a field is not read, or a call not written.
#[derive(Clone, Copy, PartialEq, Eq)]
pub enum Refusal {
    CutShort = 10,
    UnknownTag = 11,
    WrongLength = 12,
    ShortTarget = 13,
}

impl Refusal {
    // Document 01's number. (No `From`: it has one name with the numbers of the calls' refusals and answers.)
    pub fn number(self) -> u8
        ensures { result ≡ number_of self }
    {
        self as u8
    }

    // The refusal of the field whose first byte is at `place`.
    fn at(self, place: usize) -> Refused
        ensures { Err result ≡ refused self place }
    {
        Refused {
            refusal: self,
            place,
        }
    }
}

// A refusal, and the place of the refused field's first byte.
#[derive(Clone, Copy, PartialEq, Eq)]
pub struct Refused {
    pub refusal: Refusal,
    pub place: usize,
}

// The number of a field that was read or written, as C is told it.
pub const DONE: u8 = 100;

// The number where no byte is left, as C is told it.
pub const END_OF_FIELDS: u8 = 106;

// The numbers of the body that starts at `at`.
#[tactic(auto, unfolding(crate::specs::Field::call_at))]
fn read_body(bytes: &[u8], at: usize, tag: u8, own: Layout) -> Call
    requires proper { Proper own }
    requires room { at + own.length ≤ length bytes.now }
    ensures { result ≡ call_at bytes.now at tag own }
{
    let class_at = at + own.session;
    let cell_at = class_at + own.class;
    let value_at = cell_at + own.cell;
    Call {
        tag,
        session: little_endian::read(bytes, at, own.session),
        class: little_endian::read(bytes, class_at, own.class),
        cell: little_endian::read(bytes, cell_at, own.cell),
        value: little_endian::read(bytes, value_at, own.value),
    }
}

// The field that starts at `place`, or none where no byte is left: any place is taken, also the end of `bytes` and past it.
#[tactic(auto, using(crate::proofs::Readings::at_end, crate::proofs::Readings::short_head, crate::proofs::Readings::other_length, crate::proofs::Readings::short_body))]
pub fn read_field(bytes: &[u8], place: usize) -> Result<Option<Field>, Refused>
    ensures { result ≡ reading_at bytes.now place }
{
    if bytes.len() <= place {
        return Ok(None);
    }
    let left = bytes.len() - place;
    if left < 3 {
        return Err(Refusal::CutShort.at(place));
    }
    let tag = bytes[place];
    let own = tags::layout_of(tag).ok_or(Refusal::UnknownTag.at(place))?;
    let length = own.length;
    if usize::from(little_endian::read::<u16>(bytes, place + 1, 2)) != length {
        return Err(Refusal::WrongLength.at(place));
    }
    if left < 3 + length {
        return Err(Refusal::CutShort.at(place));
    }
    Ok(Some(Field {
        kind: own.kind,
        call: read_body(bytes, place + 3, tag, own),
        length: 3 + length,
    }))
}

// Puts the numbers of `call` into the body, which starts at index 3.
#[tactic(auto, using(crate::proofs::Writings::body_stores))]
fn write_body(target: &mut [u8], own: Layout, call: Call)
    requires proper { Proper own }
    requires room { 3 + own.length ≤ length target.old }
    ensures { target.new ≡ sets target.old 3 (body_of own call) }
{
    let class_at = 3 + own.session;
    let cell_at = class_at + own.class;
    let value_at = cell_at + own.cell;
    little_endian::write(target, 3, own.session, call.session);
    little_endian::write(target, class_at, own.class, call.class);
    little_endian::write(target, cell_at, own.cell, call.cell);
    little_endian::write(target, value_at, own.value, call.value);
}

// Puts the field of `call` at the front of `target`, and answers its length. A refusal leaves the target.
#[tactic(auto, using(crate::proofs::Writings::short))]
pub fn write_field(target: &mut [u8], call: Call) -> Result<usize, Refusal>
    ensures { reply_of result target.new ≡ writing target.old call }
{
    let tag = call.tag;
    let own = tags::layout_of(tag).ok_or(Refusal::UnknownTag)?;
    let length = own.length;
    let whole = 3 + length;
    if target.len() < whole {
        return Err(Refusal::ShortTarget);
    }
    target[0] = tag;
    little_endian::write(target, 1, 2, length as u16);
    write_body(target, own, call);
    Ok(whole)
}
