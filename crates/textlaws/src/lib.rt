#![tactic(auto)]

// No code: what is proved of the text's definitions (proofs/). Promised.antt has what a caller may rely on; what leads there is below it.
