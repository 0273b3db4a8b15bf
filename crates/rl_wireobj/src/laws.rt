//! Laws over the definitions alone.
ghost use Rattle.std.specs.Prelude.{◌≡◌, ◌≢◌, Ok, Err};
ghost use Rattle.serde_json.specs.Data.{Data};
ghost use Rattle.rl_types.specs.declared.frames.WireFault.TheVariants.{NoMemory};
ghost use Rattle.rl_types.specs.declared.objects.ObjectOp.{ObjectOp};
ghost use Rattle.rl_types.specs.declared.objects.ObjectState.{ObjectState};
ghost use Rattle.rl_jsonfields.specs.Order.{Ordered};
ghost use Rattle.rl_wireobj.specs.Operations.{op_at, op_json};
ghost use Rattle.rl_wireobj.specs.States.{state_at, state_json};
ghost use Rattle.rl_wireobj.specs.Sendable.{IsSendableOp, IsSendableState};

/// Each operation that is read can be sent. A value that a text spells has its members in order.
#[tactic(auto, using(crate::proofs::Fits::op_fits))]
pub fn operations_are_sendable()
    ensures { (d : Data) (op : ObjectOp) → Ordered d → op_at d ≡ Ok op → IsSendableOp op }
{}

/// Each operation that can be sent is read again as it was written.
#[tactic(auto, using(crate::proofs::Again::op_again))]
pub fn operations_read_back()
    ensures { (op : ObjectOp) → IsSendableOp op → op_at (op_json op) ≡ Ok op }
{}

/// Each object that is read can be sent. A value that a text spells has its members in order.
#[tactic(auto, using(crate::proofs::Fits::state_fits))]
pub fn objects_are_sendable()
    ensures { (d : Data) (state : ObjectState) → Ordered d → state_at d ≡ Ok state → IsSendableState state }
{}

/// Each object that can be sent is read again as it was written.
#[tactic(auto, using(crate::proofs::Again::state_again))]
pub fn objects_read_back()
    ensures { (state : ObjectState) → IsSendableState state → state_at (state_json state) ≡ Ok state }
{}

/// No value is read as want of memory: that answer comes from the allocator alone.
#[tactic(auto, using(crate::proofs::Named::no_memory_of_op, crate::proofs::Named::no_memory_of_state))]
pub fn memory_is_no_fault_of_values()
    ensures operations { (d : Data) → op_at d ≢ Err NoMemory }
    ensures objects { (d : Data) → state_at d ≢ Err NoMemory }
{}
