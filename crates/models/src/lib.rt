// Document 01's worked models as theorems about the definitions, from the bytes of the files. In specs/; there is no code here.
#![tactic(auto)]
