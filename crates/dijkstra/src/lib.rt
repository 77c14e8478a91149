// Not for outsiders. Definitions and laws only: a search that settles the open row of least key next (Dijkstra's), over plain lists.
// The searches forward and backward are proved from them.
#![tactic(auto)]
