// Numbers told in a lent slice, as far as it goes.
ghost use Rattle.std.specs.Prelude.{◌≡◌};
ghost use Rattle.task_reader.specs.Reading as T;
ghost use Rattle.planner.specs.AnswerCall as A;
ghost use Rattle.report.specs.ReportCall.{returned};
ghost use Rattle.c_interface.specs.Told.{told_in, read_numbers, report_numbers, response_numbers};

use outcome::Refusal;
use planner::Answered;
use report::Written;
use strips::Task;

// The first places get the numbers, as many as there are places.
fn tell(told: &mut [usize], numbers: &[usize])
    ensures { told.new ≡ told_in numbers.now told.old }
{
    let count = told.len().min(numbers.len());
    told[..count].copy_from_slice(&numbers[..count]);
}

// Of a report: number and place of the first question that gets no, 0 and 0 where none does; how many entries, and how many bytes.
pub fn tell_report(reported: Result<Written, Refusal>, told: &mut [usize])
    ensures { told.new ≡ told_in (report_numbers (returned reported)) told.old }
{
    match reported {
        Ok(written) => tell(told, &[0, 0, written.entries, written.bytes]),
        Err(refusal) => tell(told, &[refusal.number() as usize, refusal.place(), 0, 0]),
    }
}

// Of a best response: number and place; 1 where the answer is none, and else 0 and the minutes; how many steps.
pub fn tell_response(answered: Result<Answered, Refusal>, told: &mut [usize])
    ensures { told.new ≡ told_in (response_numbers (A.returned answered)) told.old }
{
    match answered {
        Ok(response) => match response.answer {
            Some(minutes) => tell(told, &[0, 0, 0, minutes.0 as usize, response.steps]),
            None => tell(told, &[0, 0, 1, 0, response.steps]),
        },
        Err(refusal) => tell(told, &[refusal.number() as usize, refusal.place(), 0, 0, 0]),
    }
}

// Of a text that is read: number and place.
pub fn tell_reading(reading: Result<Task, Refusal>, told: &mut [usize])
    ensures { told.new ≡ told_in (read_numbers (T.returned reading)) told.old }
{
    match reading {
        Ok(_) => tell(told, &[0, 0]),
        Err(refusal) => tell(told, &[refusal.number() as usize, refusal.place()]),
    }
}
