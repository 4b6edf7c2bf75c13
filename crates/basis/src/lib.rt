#![tactic(auto)]

// No code: what the floors above say to one another in their contracts (specs/), and what their code rests on (proofs/): from tables
// that were accepted and steps that were evaluated to what an entry leaves. It holds of any step; rule one is an instance.
