// The used actions of a task, without its unused places.
ghost use Rattle.std.specs.Prelude.{◌≡◌, ◌≤◌, ◌<◌, length, MatchOption};
ghost use Rattle.strips.specs.Limits.{max_follower};
ghost use Rattle.strips.specs.Task.{leader_actions, follower_actions};

use crate::{Action, MAX_FOLLOWER, MAX_LEADER, Task};
use std::marker::Model;

// The actions of the leader or of the follower: no more than a task has places for. In a contract they are the list.
#[derive(Drop)]
pub struct Actions<'a> {
    list: &'a [Action],
}

impl<'a> Model for Actions<'a> {
    ghost use Rattle.std.specs.Prelude.{List, ◌≤◌, length};
    ghost use Rattle.strips.specs.Limits.{max_follower};
    ghost use Rattle.strips.specs.declared.Action.{Action as StripsAction};

    ghost Value = { List StripsAction };

    ghost view = { λ a. a.list.now };

    ghost invariant = { λ a. length a.list.now ≤ max_follower };
}

impl<'a> Actions<'a> {
    // None where the list is too long.
    pub fn new(list: &'a [Action]) -> Option<Actions<'a>>
        ensures { MatchOption result (max_follower < length list.now) (λ actions. actions ≡ list.now) }
    {
        if MAX_FOLLOWER < list.len() {
            return None;
        }
        Some(Actions { list })
    }

    pub fn list(&self) -> &'a [Action]
        ensures same { result.now ≡ self.now }
        ensures few { length self.now ≤ max_follower }
    {
        self.list
    }
}

impl Task {
    #[tactic(auto, unfolding(crate::specs::Task::leader_actions))]
    pub fn leader_actions(&self) -> Actions<'_>
        ensures { result ≡ leader_actions self.now }
    {
        let list = &self.leader[..self.leader_count.min(MAX_LEADER)];
        Actions { list }
    }

    #[tactic(auto, unfolding(crate::specs::Task::follower_actions))]
    pub fn follower_actions(&self) -> Actions<'_>
        ensures { result ≡ follower_actions self.now }
    {
        let list = &self.follower[..self.follower_count.min(MAX_FOLLOWER)];
        Actions { list }
    }
}
