// The report of a text: in lent working slices and a lent plan slice, and what is printed of it with what the program lends.
ghost use Rattle.std.specs.Prelude.{◌≡◌, ◌≤◌, length, replicate};
ghost use Rattle.task_format.specs.Parse.{parse};
ghost use Rattle.outcome.specs.Limits.{max_number};
ghost use Rattle.outcome.specs.Refusal.{number_of, place_of};
ghost use Rattle.questions.specs.Lent.{lent, over};
ghost use Rattle.questions.specs.Workspace.{SameSlices};
ghost use Rattle.report_text.specs.Report.{refusal_text};
ghost use Rattle.report.specs.ReportCall.{returned};
ghost use Rattle.file_report.specs.TextCall.{TextCall, ProgramCall};
ghost use Rattle.file_report.specs.Printed.{input_bytes, AnswerPut};

use outcome::Refusal;
use questions::Workspace;
use report::{Written, print};
use report_text::put_refusal;
use rows::{BUCKET_WORDS, LINK_WORDS, WORDS};
use task_format::MAX_TEXT;
use task_reader::read;
use text_output::put_in;

// What the program lends: places of each working slice, entries and plan numbers.
const PLACES: usize = 1_024;

const ENTRIES: usize = 128;

const PLAN_NUMBERS: usize = 4_096;

// Bytes that are read of an input, and bytes of what is printed.
pub const INPUT_BYTES: usize = MAX_TEXT + 1;

pub const OUTPUT_BYTES: usize = 8_192;

// The report of the task that a text says, or the first question that gets no, with room for so many entries.
#[tactic(auto, using(crate::specs::Laws::Refused::text_refused))]
pub fn answer_in(
    text: &[u8],
    work: &mut Workspace<'_>,
    room: usize,
    plans: &mut [u8],
    output: &mut [u8],
) -> Result<Written, Refusal>
    ensures same { SameSlices (lent work) }
    ensures called { TextCall (parse text.now) (lent work) room (lent plans) (lent output) (returned result) }
{
    let task = read(text)?;
    print(task, work, room, plans, output)
}

// The same with what the program lends.
fn answer(text: &[u8], output: &mut [u8]) -> Result<Written, Refusal>
    ensures { ProgramCall (parse text.now) output.old output.new (returned result) }
{
    let mut states = [0; PLACES];
    let mut index = [[0; BUCKET_WORDS]; PLACES];
    let mut links = [[0; LINK_WORDS]; PLACES];
    let mut rows = [[0; WORDS]; PLACES];
    let mut plans = [0; PLAN_NUMBERS];
    let mut work = Workspace {
        states: &mut states,
        index: &mut index,
        links: &mut links,
        rows: &mut rows,
    };
    answer_in(text, &mut work, ENTRIES, &mut plans, output)
}

// Where an input is read to: one byte more than a text may have.
pub fn blank_input() -> [u8; INPUT_BYTES]
    ensures { result ≡ replicate input_bytes 0 }
{
    [0; INPUT_BYTES]
}

// The two lines of a refusal at the front of a slice, and how many bytes they have.
#[tactic(auto, using(text_output::specs::Laws::Puts::put_over))]
fn print_refusal(output: &mut [u8], refusal: Refusal) -> usize
    requires place { place_of refusal ≤ max_number }
    requires room { length (refusal_text (number_of refusal) (place_of refusal)) ≤ length output.old }
    ensures bytes { result ≡ length (refusal_text (number_of refusal) (place_of refusal)) }
    ensures text { output.new ≡ over (refusal_text (number_of refusal) (place_of refusal)) output.old }
{
    let number = refusal.number();
    let place = refusal.place() as u32;
    put_in(output, |out| put_refusal(out, number, place))
}

// What the program prints for a text, put at the front of the output: the report of the task that it says, or the two lines of the
// first question that gets no.
pub fn answer_text(text: &[u8], output: &mut [u8; OUTPUT_BYTES]) -> usize
    ensures { AnswerPut text.now output.old output.new result }
{
    match answer(text, output) {
        Ok(written) => written.bytes,
        Err(refusal) => print_refusal(output, refusal),
    }
}
