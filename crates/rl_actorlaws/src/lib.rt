//! What is true of all inputs of a session of the service, over the definitions of `rl_actormodel` and of the frames'
//! texts. It stands apart from both, so that the session's definitions do not stand on those of texts, and a law more is
//! proved without what stands on them.
#![tactic(auto)]

pub mod laws;
