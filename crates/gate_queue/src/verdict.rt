use gate_rules::Rule;
use gate_state::Act;
use gate_text::Settings;

/// An act, and what a gate has judged of it. It holds for the state of that gate.
#[derive(Drop)]
pub struct Judged<'a> {
    /// The act.
    pub act: &'a Act,
    /// What becomes of it.
    pub verdict: Verdict,
}

/// What becomes of an act when it steps.
#[derive(Drop)]
pub enum Verdict {
    /// This rule denies it: the first of its row that fails.
    Denied(Rule),
    /// It brings these settings.
    Sets(Settings),
    /// It is a `retry`, and this is the command that it repeats.
    Repeats(Act),
    /// It is done as it stands.
    Stands,
}
