#![tactic(auto)]

// No code: what is proved of the model's definitions (proofs/). Demands.antt has the demands; what leads there is below it.
