// What a list is refused by: a question, and the first record that it is answered for with no.
ghost use Rattle.std.specs.Prelude.{◌≡◌, Some};
ghost use Rattle.mir.specs.Answers.{number_of, refusal_of, refusal_text};

use std::error::Error;
use std::fmt;

// The questions by what each asks, with the numbers that they have in document 01, section 7, and document 02, request 10.
#[derive(Clone, Copy, Debug, PartialEq, Eq)]
pub enum Question {
    FewRegisters = 1,
    FewArgs = 2,
    Lengths = 3,
    Room = 4,
    Kind = 5,
    Fields = 6,
    Registers = 7,
    Partner = 8,
    Named = 9,
    Since = 15,
    Labels = 16,
}

impl Question {
    // The question's number.
    pub fn number(self) -> u32
        ensures { result ≡ number_of self }
    {
        self as u32
    }

    // No to a question that is put to no record.
    pub fn of_list(self) -> Refusal
        ensures { result ≡ refusal_of self 0 }
    {
        self.of_record(0)
    }

    pub fn of_record(self, index: u32) -> Refusal
        ensures { result ≡ refusal_of self index }
    {
        Refusal {
            question: self,
            index,
        }
    }
}

#[derive(Clone, Copy, Debug, PartialEq, Eq)]
pub struct Refusal {
    pub question: Question,
    // The index of the record; 0 where the question is not put to a record, as document 01 has it.
    pub index: u32,
}

impl fmt::Display for Refusal {
    ghost output = { λ r. Some (refusal_text r) };

    fn fmt<W: fmt::Write>(&self, f: &mut fmt::Formatter<W>) -> fmt::Result {
        let number = self.question.number();
        write!(f, "refused {number} at {}", self.index)
    }
}

impl Error for Refusal {}
