// Not for outsiders. What the Pareto front of a task is, and how its lines are laid out in lent slices: see specs/Front.antt and specs/Layout.antt.
#![tactic(auto)]
