//! Laws over the definitions alone. Each is a function that does nothing: its contract is the law.
ghost use Rattle.rl_pool.specs.Admitting.{NumberedAreJudged};

/// Operations that an entry gives their serials are judged by a pool that takes them as the model judges those of an
/// entry at its place: in order, each against the objects as the earlier ones left them.
#[tactic(auto, using(crate::proofs::Numbered::numbered_are_judged))]
pub fn numbered_are_judged()
    ensures { NumberedAreJudged }
{}
