#![tactic(auto)]

// No code: texts that were worked out by hand, through the definitions of the crate text (specs/).
