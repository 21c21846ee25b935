// Cells, and the guided run on cells: definitions and laws, in specs/. There is no code here.
#![tactic(auto)]
