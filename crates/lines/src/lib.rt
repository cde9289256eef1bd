// The replay's output (document 01, "Call fields"): its lines. Each writer puts a text behind what stands on the page: it needs no heap, as the page is
// lent. (No `write!`, which would need a type of its own that says what it wrote.)
#![tactic(auto)]

ghost use Rattle.std.specs.Prelude.{◌≡◌, ◌∷◌, [], ◌++◌, ◌+◌, ◌*◌, ◌≤◌, ◌<◌, length};
ghost use Rattle.replay_text.specs.Decimal.{decimal};
ghost use Rattle.replay_text.specs.Lines.{word, space, newline, size_line, set_up_line, field_line, cell_line, answer_line, cell_lines};
ghost use Rattle.lines.specs.Output.{out, put, held, Puts, stop_line};

use field::{Refusal, Refused};
use items::Next;
use records::Answer;

// The output, and the place up to which it is written.
#[derive(Drop)]
pub struct Page<'a> {
    output: &'a mut [u8],
    pub at: usize,
}

impl<'a> Page<'a> {
    pub fn new(output: &'a mut [u8]) -> Page<'a>
        ensures same { result.output.ghost_name ≡ output.entry.ghost_name }
        ensures empty { held result ≡ out 0 output.old }
    {
        Page { output, at: 0 }
    }

    #[tactic(auto, unfolding(crate::specs::Output::put))]
    fn byte(&mut self, b: u8)
        requires { self.old.at < length self.old.output.now }
        ensures same { self.new.output.ghost_name ≡ self.old.output.ghost_name }
        ensures text { held self.new ≡ put self.old.output.now self.old.at (b ∷ []) }
    {
        self.output[self.at] = b;
        self.at += 1;
    }

    // The digits of n: those of a tenth of it first.
    fn number(&mut self, n: u32)
        requires { self.old.at + length (decimal n) ≤ length self.old.output.now }
        ensures same { self.new.output.ghost_name ≡ self.old.output.ghost_name }
        ensures text { held self.new ≡ put self.old.output.now self.old.at (decimal n) }
    {
        if n < 10 {
            self.byte(b'0' + n as u8);
            return;
        }
        self.number(n / 10);
        self.byte(b'0' + (n % 10) as u8);
    }

    // A number, and what parts it from the next word or ends the line.
    fn word(&mut self, n: u32, end: u8)
        requires { self.old.at + length (word n end) ≤ length self.old.output.now }
        ensures same { self.new.output.ghost_name ≡ self.old.output.ghost_name }
        ensures text { held self.new ≡ put self.old.output.now self.old.at (word n end) }
    {
        self.number(n);
        self.byte(end);
    }

    // Two numbers with a space between them, and what parts or ends them.
    fn pair(&mut self, n: u32, m: u32, end: u8)
        requires { self.old.at + length (word n space ++ word m end) ≤ length self.old.output.now }
        ensures same { self.new.output.ghost_name ≡ self.old.output.ghost_name }
        ensures text { held self.new ≡ put self.old.output.now self.old.at (word n space ++ word m end) }
    {
        self.word(n, b' ');
        self.word(m, end);
    }

    // A text as it is.
    fn text(&mut self, text: &[u8])
        requires { self.old.at + length text.now ≤ length self.old.output.now }
        ensures same { self.new.output.ghost_name ≡ self.old.output.ghost_name }
        ensures text { held self.new ≡ put self.old.output.now self.old.at text.now }
    {
        let end = self.at + text.len();
        self.output[self.at..end].copy_from_slice(text);
        self.at = end;
    }

    // size
    pub fn size(&mut self)
        requires { self.old.at + 5 ≤ length self.old.output.now }
        ensures same { self.new.output.ghost_name ≡ self.old.output.ghost_name }
        ensures text { Puts self.old self.new size_line 5 }
    {
        self.text(b"size\n");
    }

    // setup N
    pub fn set_up(&mut self, n: u8)
        requires { self.old.at + 10 ≤ length self.old.output.now }
        ensures same { self.new.output.ghost_name ≡ self.old.output.ghost_name }
        ensures text { Puts self.old self.new (set_up_line n) 10 }
    {
        self.text(b"setup ");
        self.word(u32::from(n), b'\n');
    }

    // field PLACE N
    fn field(&mut self, place: u32, n: u8)
        requires { (place < 100000) × (self.old.at + 16 ≤ length self.old.output.now) }
        ensures same { self.new.output.ghost_name ≡ self.old.output.ghost_name }
        ensures text { Puts self.old self.new (field_line place n) 16 }
    {
        self.text(b"field ");
        self.pair(place, u32::from(n), b'\n');
    }

    // The line of what ends the calls; none where the input ends. A late starting cell is no call.
    #[tactic(auto, unfolding(crate::specs::Output::stop_line), using(crate::proofs::Puts::put_nothing))]
    fn stop(&mut self, place: usize, next: Result<Option<Next>, Refused>)
        requires { (place < 100000) × (self.old.at + 16 ≤ length self.old.output.now) }
        ensures same { self.new.output.ghost_name ≡ self.old.output.ghost_name }
        ensures text { Puts self.old self.new (stop_line place next) 16 }
    {
        match next {
            Err(refused) => self.field(place as u32, refused.refusal.number()),
            Ok(Some(Next::Cell(_))) => self.field(place as u32, Refusal::UnknownTag.number()),
            Ok(Some(Next::Call { .. })) => {}
            Ok(None) => {}
        }
    }

    // ORDINAL N VALUE
    fn told(&mut self, ordinal: u32, number: u32, value: u32)
        requires { (ordinal < 100000) × (number < 1000) × (self.old.at + 21 ≤ length self.old.output.now) }
        ensures same { self.new.output.ghost_name ≡ self.old.output.ghost_name }
        ensures text { Puts self.old self.new (word ordinal space ++ (word number space ++ word value newline)) 21 }
    {
        self.pair(ordinal, number, b' ');
        self.word(value, b'\n');
    }

    // ORDINAL N, and after 101 and 104 the value
    pub fn answer(&mut self, ordinal: u32, answer: Answer)
        requires { (ordinal < 100000) × (self.old.at + 21 ≤ length self.old.output.now) }
        ensures same { self.new.output.ghost_name ≡ self.old.output.ghost_name }
        ensures text { Puts self.old self.new (answer_line ordinal answer) 21 }
    {
        let n = u32::from(answer.number());
        match answer {
            Answer::Value(v) => self.told(ordinal, n, v),
            Answer::Waiting(others) => self.told(ordinal, n, others),
            _ => self.pair(ordinal, n, b'\n'),
        }
    }

    // c CELL VALUE
    fn cell(&mut self, cell: u32, value: u32)
        requires { (cell < 10000) × (self.old.at + 18 ≤ length self.old.output.now) }
        ensures same { self.new.output.ghost_name ≡ self.old.output.ghost_name }
        ensures text { held self.new ≡ put self.old.output.now self.old.at (cell_line cell value) }
    {
        self.text(b"c ");
        self.pair(cell, value, b'\n');
    }

    // A line for each cell.
    fn cells(&mut self, values: &[u32])
        requires { (length values.now ≤ 1024) × (self.old.at + 18 * length values.now ≤ length self.old.output.now) }
        ensures same { self.new.output.ghost_name ≡ self.old.output.ghost_name }
        ensures text { Puts self.old self.new (cell_lines 0 values.now) (18 * length values.now) }
    {
        for (i, v) in values.iter().enumerate() {
            self.cell(i as u32, *v);
        }
    }

    // The line of what ends the calls, then the cells.
    pub fn end(&mut self, place: usize, next: Result<Option<Next>, Refused>, values: &[u32])
        requires { (place < 100000) × (length values.now ≤ 1024) × (self.old.at + 18448 ≤ length self.old.output.now) }
        ensures same { self.new.output.ghost_name ≡ self.old.output.ghost_name }
        ensures text { Puts self.old self.new (stop_line place next ++ cell_lines 0 values.now) 18448 }
    {
        self.stop(place, next);
        self.cells(values);
    }
}
