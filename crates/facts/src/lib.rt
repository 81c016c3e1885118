#![tactic(auto)]

// Tests and the facts they tell, with no word of the product. Definitions and laws only.
