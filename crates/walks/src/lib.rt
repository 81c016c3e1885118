// What walks by hand have in common, those of functions over a lent slice of records or over a struct that holds a slice. Laws only.
#![tactic(auto)]
