// Document 01's worked examples, as theorems about the meanings. They stand in specs/, and that all hold in proofs/.
#![tactic(auto)]
