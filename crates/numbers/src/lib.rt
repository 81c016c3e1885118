// The twelve numbers of document 01, "Numbers to hold against it", and those that document 02 names, proved of the definitions. Definitions and laws only.
#![tactic(auto)]
