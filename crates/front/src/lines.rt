// The search for the front's lines, and questions 13 to 15 about them.
ghost use Rattle.questions.specs.Lent.{lent};
ghost use Rattle.questions.specs.Workspace.{SameSlices};
ghost use Rattle.planner.specs.Searches.{Spacious};
ghost use Rattle.front.specs.FrontCall.{returned};
ghost use Rattle.front.specs.Inner.Stages.{LinesFound, LinesAsked, UsedCleared, LinesListed};

use front_lines::{Lines, choose};
use outcome::Refusal;
use planner::solve;
use questions::Workspace;
use strips::ValidTask;

// How many lines the front has, whose rows are noted; question 13, whether the states that can be reached fit n places.
#[tactic(auto, using(planner::specs::Laws::Within::solved_whole))]
fn find_lines(task: ValidTask, n: usize, work: &mut Workspace<'_>) -> Result<usize, Refusal>
    requires { Spacious n work.old }
    ensures same { SameSlices (lent work) }
    ensures found { LinesFound task n work.new.rows.now result }
{
    let m = solve(task, n, work)?;
    Ok(choose(work.rows, m))
}

// Questions 13 to 15, with room for so many entries and plan numbers. The lines are left in the rows.
#[tactic(auto, using(crate::specs::Laws::Stages::line_questions))]
fn search_lines(
    task: ValidTask,
    n: usize,
    work: &mut Workspace<'_>,
    entries: usize,
    numbers: usize,
) -> Result<usize, Refusal>
    requires { Spacious n work.old }
    ensures same { SameSlices (lent work) }
    ensures asked { LinesAsked task n entries numbers work.new.rows.now (returned result) }
{
    let count = find_lines(task, n, work)?;
    if entries < count {
        return Err(Refusal::TooManyEntries);
    }
    // Lent as `&` out of the workspace, the rows would be lost to the proof.
    let rows = &mut *work.rows;
    if numbers < Lines::new(rows, count).total_steps() {
        return Err(Refusal::PlansTooLong);
    }
    Ok(count)
}

// Clears what the search has used, but for the rows of lines.
fn clear_used(fronted: Result<usize, Refusal>, work: &mut Workspace<'_>)
    ensures same { SameSlices (lent work) }
    ensures cleared { UsedCleared fronted (lent work) }
{
    match fronted {
        Ok(_) => work.clear_all_but_rows(),
        Err(_) => work.clear(),
    }
}

// The same questions; only the rows of lines are not cleared.
#[tactic(auto, using(crate::specs::Laws::Stages::listed_left))]
pub fn list_lines(
    task: ValidTask,
    n: usize,
    work: &mut Workspace<'_>,
    entries: usize,
    numbers: usize,
) -> Result<usize, Refusal>
    requires { Spacious n work.old }
    ensures same { SameSlices (lent work) }
    ensures listed { LinesListed task n entries numbers (lent work) (returned result) }
{
    let fronted = search_lines(task, n, work, entries, numbers);
    clear_used(fronted, work);
    fronted
}
