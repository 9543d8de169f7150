use mt_evaluator::Evaluator;

/// The expressions whose parts are of a level.
#[derive(Clone, Copy)]
pub struct Expressions<'a, H, F, G> {
    /// What evaluates the parts.
    pub level: Evaluator<'a, H, F, G>,
}
