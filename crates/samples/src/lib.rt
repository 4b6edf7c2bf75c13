#![tactic(auto)]

// No code: this crate holds one claim about the model's definitions (specs/Samples.antt), made by an outside program (outside/choices/).
