// The automaton, acceptance, derivations and rounds of saturation: definitions and laws, in specs/. There is no code here.
#![tactic(auto)]
