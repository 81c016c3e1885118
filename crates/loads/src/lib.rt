// Document 02's words on the loads of columns, A2: loads, the red column, the edits of a list. Definitions and laws only.
#![tactic(auto)]
