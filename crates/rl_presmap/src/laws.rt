//! Laws over the definitions alone. Each is a function that does nothing: its contract is the law.
ghost use Rattle.rl_presmap.specs.ByKey.{AllGoByKey};
ghost use Rattle.rl_presmap.specs.Examples.{IdsRead, NewnessIs, ItemsAreTaken, SyncsGo, PagesGo, OrderMatters};
ghost use Rattle.rl_presmap.specs.Fed.{FedMapsHoldMembers};
ghost use Rattle.rl_presmap.specs.Renewing.{OrderlyLogsRenew};
ghost use Rattle.rl_presmap.specs.Soundness.{MapsStaySound};

/// What stands at a key after a call is a function of what stood there, of the sync, and of what the call was given; so
/// an item changes what stands at its own key alone. This holds of every map whose keys rise.
pub fn all_go_by_key()
    ensures { AllGoByKey }
{}

/// In a map the keys rise, and none is residual or absent where no sync is open. A map that holds nothing is so, and each
/// call leaves one that is so. So the end of a sync changes nothing and tells nothing where none is open.
#[tactic(auto, using(crate::proofs::Steady::maps_stay_sound))]
pub fn maps_stay_sound()
    ensures { MapsStaySound }
{}

/// Which ids are regular, and which of two items is the newer one.
#[tactic(auto, using(crate::proofs::Tried::ids_read, crate::proofs::Tried::newness_is))]
pub fn examples_of_newness()
    ensures ids { IdsRead }
    ensures newness { NewnessIs }
{}

/// What small maps hold and tell after items, and while syncs open and end.
#[tactic(auto, using(crate::proofs::Tried::items_are_taken, crate::proofs::Tried::syncs_go, crate::proofs::Tried::pages_go))]
pub fn examples_of_maps()
    ensures items { ItemsAreTaken }
    ensures syncs { SyncsGo }
    ensures pages { PagesGo }
{}

/// In the log of an orderly history, in which no Put of a connection adds after a Gone of it, each item of a key is newer
/// than all earlier ones of that key, and none of these is newer than an ENTER or UPDATE after it. So the last item of a
/// key is newer than each before it. (What is orderly is this project's own.)
pub fn orderly_logs_renew()
    ensures { OrderlyLogsRenew }
{}

/// Without that order it fails: where a connection puts again after it was gone for good, the last item of a key can be
/// older than one before it.
#[tactic(auto, using(crate::proofs::Tried::order_matters))]
pub fn examples_of_order()
    ensures { OrderMatters }
{}

/// A map that takes up each item of such a log, in order, from nothing and with no sync open, has the log's members: of
/// each key the member of the map is that of the log, as PRESENT.
pub fn fed_maps_hold_members()
    ensures { FedMapsHoldMembers }
{}
