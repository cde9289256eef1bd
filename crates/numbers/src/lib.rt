// What C is told, in numbers: a reply as document 01's number and value beside the record, and the index of the log's word that a peek is shown. It touches no buffer.
#![tactic(auto)]

ghost use Rattle.std.specs.Prelude.{◌≡◌, true};
ghost use Rattle.numbers.specs.Answers.{numbers_of, set_up_numbers_of, refusal_of, of_begin, of_read, of_seal};
ghost use Rattle.numbers.specs.Places.{ShownAt};

use records::{Answer, Reply, Session, SessionReply, Sessions};

// A call's answer as document 01's number and value, and the record that it hands back.
#[repr(C)]
#[derive(Clone, Copy)]
pub struct NumberReply {
    pub number: u32,
    pub value: u32,
    pub session: Session,
}

// The answer of set-up and of a load, and the sixteen records.
#[repr(C)]
#[derive(Clone, Copy)]
pub struct SetUpReply {
    pub number: u32,
    pub value: u32,
    pub sessions: Sessions,
}

// An answer in numbers. (Two `From` of one shape: the two structs are the C interface.)
impl From<SessionReply> for NumberReply {
    ghost from_gives = { λ r reply. reply ≡ numbers_of r };

    fn from(r: SessionReply) -> NumberReply {
        NumberReply {
            number: u32::from(r.answer.number()),
            value: r.answer.value(),
            session: r.session,
        }
    }
}

// The answer of set-up or of a load in numbers.
impl From<Reply> for SetUpReply {
    ghost from_gives = { λ r reply. reply ≡ set_up_numbers_of r };

    fn from(r: Reply) -> SetUpReply {
        SetUpReply {
            number: u32::from(r.answer.number()),
            value: r.answer.value(),
            sessions: r.sessions,
        }
    }
}

// The answer of begin in numbers, and below those of read and seal, each by the answers that it gives: one test or two in place of a jump by the tag.
pub fn begin_in_numbers(r: SessionReply) -> NumberReply
    requires { of_begin r.answer ≡ true }
    ensures { result ≡ numbers_of r }
{
    let number = match r.answer {
        Answer::Refused(number) => u32::from(number),
        _ => 100,
    };
    NumberReply {
        number,
        value: 0,
        session: r.session,
    }
}

// The number of a refusal, 0 of any other answer: a number and no Option, since it is what C is told beside the value.
pub fn refusal(answer: Answer) -> u32
    ensures { result ≡ refusal_of answer }
{
    match answer {
        Answer::Refused(number) => u32::from(number),
        _ => 0,
    }
}

// It returns early: where one match gives both numbers, a read or hold of a known cell takes two instructions more.
pub fn read_in_numbers(r: SessionReply) -> NumberReply
    requires { of_read r.answer ≡ true }
    ensures { result ≡ numbers_of r }
{
    let SessionReply { answer, session } = r;
    if let Answer::Value(value) = answer {
        return NumberReply {
            number: 101,
            value,
            session,
        };
    }
    NumberReply {
        number: refusal(answer),
        value: 0,
        session,
    }
}

pub fn seal_in_numbers(r: SessionReply) -> NumberReply
    requires { of_seal r.answer ≡ true }
    ensures { result ≡ numbers_of r }
{
    let number = match r.answer {
        Answer::Refused(number) => u32::from(number),
        Answer::Committed => 105,
        _ => 102,
    };
    NumberReply {
        number,
        value: 0,
        session: r.session,
    }
}

// The index in the logs of the word that a peek of a written cell is shown: the present value of entry `k`.
#[tactic(auto, unfolding(model::specs::Effects::shown))]
pub fn shown_at(session: u8, k: u32) -> usize
    ensures { ShownAt session k result }
{
    128 * (session as usize) + (4 * (k as usize) + 2)
}
