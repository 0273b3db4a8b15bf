//! Laws over the definitions alone. Each is a function that does nothing: its contract is the law.
ghost use Rattle.rl_actorlaws.specs.Readable.{FramesFit};
ghost use Rattle.rl_actorlaws.specs.Shows.{ShowsSession};
ghost use Rattle.rl_actorlaws.specs.Told.{WhatIsPutOutWasTold};

/// Each frame that an actor puts out can be sent, its text is not too long, and that text reads as the same frame: for
/// all inputs that its calls allow and that hold what frames and machines give.
pub fn frames_fit()
    ensures { FramesFit }
{}

/// A session with pages and an entry, whose inputs are such.
#[tactic(auto, using(crate::proofs::Computed::session))]
pub fn session_shown()
    ensures { ShowsSession }
{}

/// The entries and pages that an actor puts out are those of its reads and of its pages, in order, each once: behind the
/// entries of a read come the end pages, where the sync may end there (RTL7, RTP18, RTO5).
#[tactic(auto, using(crate::proofs::Telling::what_is_put_out_was_told))]
pub fn what_is_put_out_was_told()
    ensures { WhatIsPutOutWasTold }
{}
