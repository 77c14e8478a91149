// Not for outsiders. Specs and laws only: the transitions between the rows of a table, and the keys of a search over them. The search for least keys and the
// pass that makes least plans of them are both stated over these, so an edit of either does not recheck the other.
#![tactic(auto)]
