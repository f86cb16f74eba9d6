// The questions before reducing (document 01, section 7) that are asked of a list as a whole: 1 to 4 before any record, and 16 after
// all. Those in between are asked of one record, in mir; the walk of crate lives puts them to each.
#![tactic(auto)]

pub mod branches;

ghost use Rattle.std.specs.Prelude.{◌≡◌};
ghost use Rattle.mir.specs.Answers.{verdict_in};
ghost use Rattle.mir.specs.Questions.{args_refusal, start_refusal};

use mir::config::Settings;
use mir::questions::{check_count, check_lengths};
use mir::refusal::{Question, Refusal};

// Question 2.
fn check_args(args: u32) -> Result<(), Refusal>
    ensures { verdict_in result ≡ args_refusal args }
{
    if 65_535 < args {
        return Err(Question::FewArgs.of_list());
    }
    Ok(())
}

// Questions 1 to 4, of the lengths of the list and of the table; `room` is the answer to question 4, which the operation that
// lends the buffers gives.
pub fn check_start(settings: Settings, list: usize, table: usize, room: bool) -> Result<(), Refusal>
    ensures { verdict_in result ≡ start_refusal room settings list table }
{
    check_count(settings.count_regs)?;
    check_args(settings.args)?;
    check_lengths(list, table, room)
}
