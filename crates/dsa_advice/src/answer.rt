//! What a command answers.

ghost use Rattle.std.specs.Prelude.{◌≡◌, IfOk};
ghost use Rattle.dsa_calls.specs.Fault.{list_cause};
ghost use Rattle.dsa_advice.specs.Refusals.{IsRefusal, RefusesText};

use crate::messages::{grammar_message, line_message, list_message, message_of, message_with};
use crate::mistakes::{grammar_mistakes, list_mistakes};
use crate::words::{line_at, other_than_lines};
use dsa_calls::PlanFault;
use dsa_descriptor::ListFault;
use dsa_lines::TextFault;
use std::alloc::{AllocError, Global};

/// What a command answers.
#[derive(Drop)]
pub struct Answer {
    /// What is written: the answer to standard output, or why there is none to standard error.
    pub text: String,
    /// The status of the program: 0 for an answer and 1 for a refusal.
    pub status: u8,
    /// Notes and warnings beside it, for standard error.
    pub warnings: Option<String>,
}

impl Answer {
    /// An answer.
    pub fn done(text: String) -> Answer
        ensures text { result.text ≡ text }
        ensures status { result.status ≡ 0 }
    {
        Answer {
            text,
            status: 0,
            warnings: None,
        }
    }

    /// A refusal.
    pub fn refused(text: String) -> Answer
        ensures text { result.text ≡ text }
        ensures status { result.status ≡ 1 }
    {
        Answer {
            text,
            status: 1,
            warnings: None,
        }
    }

    /// The same, with these warnings beside it if it is an answer.
    pub fn with_warnings(self, warnings: Option<String>) -> Answer
        ensures text { result.text ≡ self.text }
        ensures status { result.status ≡ self.status }
    {
        if self.status != 0 {
            return self;
        }
        Answer {
            text: self.text,
            status: self.status,
            warnings,
        }
    }

    /// The refusal of a job or a list.
    pub fn fault(alloc: Global, fault: PlanFault) -> Result<Answer, AllocError>
        ensures { IfOk result (IsRefusal fault) }
    {
        Ok(Answer::refused(message_of(alloc, fault)?))
    }

    /// The refusal of a job or a list, in words that say more than its cause does.
    pub fn fault_with(alloc: Global, fault: PlanFault, words: &str) -> Result<Answer, AllocError>
        ensures { IfOk result (IsRefusal fault) }
    {
        Ok(Answer::refused(message_with(alloc, fault, words)?))
    }

    /// The refusal of the bytes of a list, with the values that are at fault.
    pub fn list_fault(alloc: Global, list: &[u8], fault: ListFault) -> Result<Answer, AllocError>
        ensures { IfOk result (IsRefusal (list_cause fault)) }
    {
        Ok(Answer::refused(list_message(alloc, list, fault)?))
    }

    /// The refusal of a text, which names each line that is wrong, up to 20; but of a line that is none of a text of
    /// operations, as those of a dump or of JSON, the first alone.
    pub fn text_fault(alloc: Global, text: &[u8], fault: TextFault) -> Result<Answer, AllocError>
        ensures { IfOk result (RefusesText fault) }
    {
        match fault {
            TextFault::Grammar(line, column, expected) => {
                let first = grammar_message(alloc, text, line, column, expected)?;
                if other_than_lines(line_at(text, line)).is_some() {
                    return Ok(Answer::refused(first));
                }
                let all = grammar_mistakes(alloc, text, line, first)?;
                Ok(Answer::refused(all))
            }
            TextFault::List(line, fault) => {
                let first = line_message(alloc, text, line, fault)?;
                let all = list_mistakes(alloc, text, line, fault, first)?;
                Ok(Answer::refused(all))
            }
            TextFault::Memory => Answer::fault(alloc, PlanFault::Memory),
        }
    }
}
