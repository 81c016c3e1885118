// The clause list of a job, and the theorem that its models are the codes of the legal routings. Document 01, "Clause lines". No code.
#![tactic(auto)]
