// The replay's input (document 01, "Call fields"): what stands at a place of it, and the starting cells that lead it.
#![tactic(auto)]

ghost use Rattle.std.specs.Prelude.{◌≡◌, ◌+◌, ◌≤◌, length};
ghost use Rattle.field.specs.Field.{reading_at};
ghost use Rattle.items.specs.Items.{next_of_field, next_of};
ghost use Rattle.items.specs.Leading.{cell_of, ReadCells};

use field::{Field, Kind, Refused};
use records::Call;

// A starting cell, with its field's length.
#[derive(Clone, Copy)]
pub struct Cell {
    pub class: u8,
    pub value: u32,
    pub length: usize,
}

// What a field is to the replay: a starting cell, or a call with the field's length.
#[derive(Clone, Copy)]
pub enum Next {
    Cell(Cell),
    Call { call: Call, length: usize },
}

// How many starting cells lead the input, and the place of the field that closes them.
#[derive(Clone, Copy)]
pub struct Cells {
    pub count: usize,
    pub place: usize,
}

impl From<Field> for Next {
    ghost from_gives = { λ field next. next ≡ next_of_field field.kind field.call field.length };

    #[tactic(auto, unfolding(crate::specs::Items::next_of_field))]
    fn from(field: Field) -> Next {
        let length = field.length;
        let numbers = field.call;
        let session = numbers.session;
        let cell = u32::from(numbers.cell);
        let call = match field.kind {
            Kind::Begin => Call::Begin(session),
            Kind::Read => Call::Read(session, cell),
            Kind::Write => Call::Write(session, cell, numbers.value),
            Kind::Seal => Call::Seal(session),
            Kind::Advance => Call::Advance(session),
            Kind::Abandon => Call::Abandon(session),
            Kind::Hold => Call::Hold(session, cell),
            Kind::StartingCell => {
                return Next::Cell(Cell {
                    class: numbers.class,
                    value: numbers.value,
                    length,
                });
            }
        };
        Next::Call { call, length }
    }
}

// What stands at a place of the input: none where it ends.
#[tactic(auto, unfolding(crate::specs::Items::next_of))]
pub fn next_at(input: &[u8], place: usize) -> Result<Option<Next>, Refused>
    ensures { result ≡ next_of (reading_at input.now place) }
{
    Ok(field::read_field(input, place)?.map(Next::from))
}

// The starting cell at a place of the input; none where something else stands, or nothing.
#[tactic(auto, unfolding(crate::specs::Leading::cell_of))]
fn cell_at(input: &[u8], place: usize) -> Option<Cell>
    ensures { result ≡ cell_of (next_of (reading_at input.now place)) }
{
    match next_at(input, place) {
        Ok(Some(Next::Cell(cell))) => Some(cell),
        Ok(Some(Next::Call { .. })) => None,
        Ok(None) => None,
        Err(_) => None,
    }
}

// Reads the leading cells into values and classes; none where there are more than 1,024.
pub fn read_cells(input: &[u8], values: &mut [u32], classes: &mut [u8]) -> Option<Cells>
    requires { (1024 ≤ length values.old) × (1024 ≤ length classes.old) }
    ensures { ReadCells input.now values.new classes.new result }
{
    let mut place = 0;
    // A `for` over the counts would look for a cell at two places, in the loop and past the 1,024th.
    let mut count = 0;
    while let Some(cell) = cell_at(input, place) {
        let full = count == 1024;
        if full {
            return None;
        }
        values[count] = cell.value;
        classes[count] = cell.class;
        count += 1;
        place += cell.length;
    }
    Some(Cells { count, place })
}
