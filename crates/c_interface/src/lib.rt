// What C and Rust programs call: the report of a hall file's text, the best response in it, and its reader. Slices pass as a pointer and a length, so the
// four working slices come one by one, and a workspace is made of them here.
#![tactic(auto)]

mod told;

ghost use Rattle.std.specs.Prelude.{◌≡◌};
ghost use Rattle.task_format.specs.Parse.{parse};
ghost use Rattle.questions.specs.Lent.{lent};
ghost use Rattle.c_interface.specs.Told.{told_in, read_numbers, ReportTold, ResponseTold};

use file_report::answer_in;
use file_response::response_in;
use questions::Workspace;
use rows::{BUCKET_WORDS, LINK_WORDS, WORDS};
use task_reader::read;
use told::{tell_reading, tell_report, tell_response};

// The report of the task that a text says, in lent slices with room for so many entries. The first places of told get the
// number of the first question that gets no or 0, its place, the number of entries and the number of bytes.
#[unsafe(no_mangle)]
pub extern "C" fn faldwern_report<'w, 'b>(
    text: &[u8],
    states: &'w mut [u64],
    index: &'w mut [[u16; BUCKET_WORDS]],
    links: &'w mut [[u16; LINK_WORDS]],
    rows: &'b mut [[u64; WORDS]],
    room: usize,
    plans: &'w mut [u8],
    output: &'w mut [u8],
    told: &mut [usize],
)
    ensures { ReportTold (parse text.now) (lent states) (lent index) (lent links) (lent rows) room (lent plans) (lent output) (lent told) }
{
    let mut work = Workspace {
        states,
        index,
        links,
        rows,
    };
    let reported = answer_in(text, &mut work, room, plans, output);
    tell_report(reported, told);
}

// The best response to a leader plan in the task that a text says, in lent slices. The first places of told get the number of the first question that gets no
// or 0, its place, 1 where the answer is none and else 0, the minutes, and the number of steps.
#[unsafe(no_mangle)]
pub extern "C" fn faldwern_response<'w, 'b>(
    text: &[u8],
    leader_plan: &[u8],
    states: &'w mut [u64],
    index: &'w mut [[u16; BUCKET_WORDS]],
    links: &'w mut [[u16; LINK_WORDS]],
    rows: &'b mut [[u64; WORDS]],
    plan: &'w mut [u8],
    told: &mut [usize],
)
    ensures { ResponseTold (parse text.now) leader_plan.now (lent states) (lent index) (lent links) (lent rows) (lent plan) (lent told) }
{
    let mut work = Workspace {
        states,
        index,
        links,
        rows,
    };
    let answered = response_in(text, leader_plan, &mut work, plan);
    tell_response(answered, told);
}

// Whether a text is a hall file. The first places of told get the number of the first question that gets no or 0, and its place.
#[unsafe(no_mangle)]
pub extern "C" fn faldwern_read(text: &[u8], told: &mut [usize])
    ensures { told.new ≡ told_in (read_numbers (parse text.now)) told.old }
{
    let reading = read(text);
    tell_reading(reading, told);
}
