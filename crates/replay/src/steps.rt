// The replay of a leader plan and then a follower plan: questions 9 to 12, both costs and the end state.
ghost use Rattle.std.specs.Prelude.{◌≡◌, ◌≤◌, MatchResult};
ghost use Rattle.strips.specs.Limits.{max_steps};
ghost use Rattle.replay.specs.Replay.{returned, replayed};
ghost use Rattle.replay.specs.Run.{Runnable, Ran, Stuck, AllKnown, Unknown, Numbered};

use crate::Ended;
use outcome::{Cost, Minutes, Price, Refusal};
use strips::{Action, MAX_STEPS, Task, ValidTask, applies, holds, successor};

// Question 11 for a plan whose steps are counted on from `earlier` ones.
fn ask_known(count: usize, plan: &[u8], earlier: usize) -> Result<(), Refusal>
    requires { earlier ≤ max_steps }
    ensures { MatchResult result (λ _. AllKnown count plan.now) (Unknown count plan.now earlier) }
{
    for (i, k) in plan.iter().enumerate() {
        if !(1..=count).contains(&usize::from(*k)) {
            return Err(Refusal::UnknownAction(earlier + i + 1));
        }
    }
    Ok(())
}

// How far a plan has been run: to which state, and at what cost of its own kind.
#[derive(Clone, Copy)]
pub struct Progress<C> {
    pub state: u64,
    pub cost: C,
}

// Question 12, with what it finds: runs a plan whose steps are counted on from `earlier` ones.
fn run<C: Cost>(
    actions: &[Action],
    start: u64,
    plan: &[u8],
    earlier: usize,
) -> Result<Progress<C>, Refusal>
    requires runnable { Runnable actions.now plan.now }
    requires earlier { earlier ≤ max_steps }
    ensures { MatchResult result (Ran C.amount actions.now start plan.now) (Stuck actions.now start plan.now earlier) }
{
    let mut state = start;
    let mut cost = C::of(0);
    for (i, k) in plan.iter().enumerate() {
        let action = actions[usize::from(*k) - 1];
        if !applies(action, state) {
            return Err(Refusal::NotApplicable(earlier + i + 1));
        }
        state = successor(action, state);
        cost = cost.plus(C::of(action.cost));
    }
    Ok(Progress { state, cost })
}

// Question 12 and what a replay returns, where questions 9 to 11 have their yes.
fn replay_known(task: &Task, leader_plan: &[u8], follower_plan: &[u8]) -> Result<Ended, Refusal>
    requires { Numbered task.now leader_plan.now follower_plan.now }
    ensures { returned result ≡ replayed task.now leader_plan.now follower_plan.now }
{
    let leader = task.leader_actions();
    let follower = task.follower_actions();
    let first = run::<Price>(leader.list(), task.initial, leader_plan, 0)?;
    let second = run::<Minutes>(
        follower.list(),
        first.state,
        follower_plan,
        leader_plan.len(),
    )?;
    Ok(Ended {
        price: first.cost,
        minutes: second.cost,
        state: second.state,
        goal: holds(second.state, task.goal),
    })
}

// The replay of a task of which question 9 has been asked.
pub fn replay_valid(
    task: ValidTask,
    leader_plan: &[u8],
    follower_plan: &[u8],
) -> Result<Ended, Refusal>
    ensures { returned result ≡ replayed task leader_plan.now follower_plan.now }
{
    let task = task.task();
    if MAX_STEPS < leader_plan.len() || MAX_STEPS < follower_plan.len() {
        return Err(Refusal::PlanTooLong);
    }
    ask_known(task.leader_count, leader_plan, 0)?;
    ask_known(task.follower_count, follower_plan, leader_plan.len())?;
    replay_known(task, leader_plan, follower_plan)
}

pub fn replay(task: Task, leader_plan: &[u8], follower_plan: &[u8]) -> Result<Ended, Refusal>
    ensures { returned result ≡ replayed task leader_plan.now follower_plan.now }
{
    let task = ValidTask::new(task).ok_or(Refusal::InvalidTask)?;
    replay_valid(task, leader_plan, follower_plan)
}
