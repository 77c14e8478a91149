// Not for outsiders. Specs and laws only: what a call promises that is given the text of a hall file. See specs/OnText.antt.
#![tactic(auto)]
