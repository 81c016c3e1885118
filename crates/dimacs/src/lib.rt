// The language spoken with solvers: clauses, and a solver's reply ("A solver's reply" and rows 6 to 8 of document 01). Definitions and laws, no code.
#![tactic(auto)]
