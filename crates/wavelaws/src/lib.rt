#![tactic(auto)]

// No code: what is proved of the dump's definitions (proofs/): digits and lengths, that a viewer reads back each step's states, and what the
// outcome of a dumped run promises.
