#![tactic(auto)]

// What the dump of a run means: its bytes, how a viewer reads them, and what the entry that writes it answers and leaves. All of it is in
// specs/; what is proved of it is the crate wavelaws.
