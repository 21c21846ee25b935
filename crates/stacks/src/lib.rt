// Annotated stacks of order 1 and 2, their operations, systems and runs: definitions and laws, in specs/. There is no code here.
#![tactic(auto)]
