use mt_evaluator::Evaluator;

/// The statements whose parts are of a level.
#[derive(Clone, Copy)]
pub struct Statements<'a, H, F, G> {
    /// What evaluates the parts.
    pub level: Evaluator<'a, H, F, G>,
}
