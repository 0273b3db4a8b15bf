use rl_ids::{Copied, List, MapValue, NoMemory, ObjectId, OpSerial, Same, SiteCode, Text};
use std::alloc::Global;

/// What is done to an object (RTO). The root is there from the start.
#[derive(Debug, Drop)]
pub enum Op {
    /// A map is made (RTLM16), with what it has at the start.
    MapCreate {
        id: ObjectId,
        entries: List<(Text, MapValue)>,
    },
    /// A key of a map is given a value (RTLM7).
    MapSet {
        id: ObjectId,
        key: Text,
        value: MapValue,
    },
    /// A key of a map loses its value (RTLM8).
    MapRemove {
        id: ObjectId,
        key: Text,
    },
    /// A counter is made (RTLC8), with a first amount.
    CounterCreate {
        id: ObjectId,
        count: i64,
    },
    /// An amount is added to a counter (RTLC9).
    CounterInc {
        id: ObjectId,
        amount: i64,
    },
    /// An object is deleted.
    Delete {
        id: ObjectId,
    },
}

/// An operation with its serial, where it has one.
#[derive(Debug, Drop)]
pub struct ObjectOp {
    pub op: Op,
    pub serial: Option<OpSerial>,
}

/// What stands at a key of a map: the serial of the operation that wrote it, and the value, or none where it was
/// removed (RTLM3a).
#[derive(Debug, Drop)]
pub struct MapCell {
    pub serial: OpSerial,
    pub value: Option<MapValue>,
}

/// What an object holds: a counter's sum, or what stands at a map's keys, in order of key.
#[derive(Debug, Drop)]
pub enum ObjectBody {
    Counter(i128),
    Map(List<(Text, MapCell)>),
}

/// An object as a page shows it (OST2): of each site the greatest serial that named it, in order of site.
#[derive(Debug, Drop)]
pub struct ObjectState {
    pub id: ObjectId,
    pub sites: List<(SiteCode, OpSerial)>,
    pub tombstone: bool,
    pub created: bool,
    pub body: ObjectBody,
}

impl Copied for Op {
    fn copy(&self, alloc: Global) -> Result<Op, NoMemory> {
        match self {
            Op::MapCreate { id, entries } => Ok(Op::MapCreate {
                id: *id,
                entries: entries.copy(alloc)?,
            }),
            Op::MapSet { id, key, value } => Ok(Op::MapSet {
                id: *id,
                key: key.copy(alloc)?,
                value: value.copy(alloc)?,
            }),
            Op::MapRemove { id, key } => Ok(Op::MapRemove {
                id: *id,
                key: key.copy(alloc)?,
            }),
            Op::CounterCreate { id, count } => Ok(Op::CounterCreate {
                id: *id,
                count: *count,
            }),
            Op::CounterInc { id, amount } => Ok(Op::CounterInc {
                id: *id,
                amount: *amount,
            }),
            Op::Delete { id } => Ok(Op::Delete { id: *id }),
        }
    }
}

impl Copied for ObjectOp {
    fn copy(&self, alloc: Global) -> Result<ObjectOp, NoMemory> {
        Ok(ObjectOp {
            op: self.op.copy(alloc)?,
            serial: self.serial,
        })
    }
}

impl Copied for MapCell {
    fn copy(&self, alloc: Global) -> Result<MapCell, NoMemory> {
        Ok(MapCell {
            serial: self.serial,
            value: self.value.copy(alloc)?,
        })
    }
}

impl Copied for ObjectBody {
    fn copy(&self, alloc: Global) -> Result<ObjectBody, NoMemory> {
        match self {
            ObjectBody::Counter(sum) => Ok(ObjectBody::Counter(*sum)),
            ObjectBody::Map(cells) => Ok(ObjectBody::Map(cells.copy(alloc)?)),
        }
    }
}

impl Copied for ObjectState {
    fn copy(&self, alloc: Global) -> Result<ObjectState, NoMemory> {
        Ok(ObjectState {
            id: self.id,
            sites: self.sites.copy(alloc)?,
            tombstone: self.tombstone,
            created: self.created,
            body: self.body.copy(alloc)?,
        })
    }
}

impl Same for MapCell {
    fn same(&self, other: &MapCell) -> bool {
        self.serial.same(&other.serial) && self.value.same(&other.value)
    }
}

impl Same for ObjectBody {
    fn same(&self, other: &ObjectBody) -> bool {
        match (self, other) {
            (ObjectBody::Counter(a), ObjectBody::Counter(b)) => a.same(b),
            (ObjectBody::Map(a), ObjectBody::Map(b)) => a.same(b),
            _ => false,
        }
    }
}

impl Same for ObjectState {
    fn same(&self, other: &ObjectState) -> bool {
        self.id.same(&other.id)
            && self.sites.same(&other.sites)
            && self.tombstone.same(&other.tombstone)
            && self.created.same(&other.created)
            && self.body.same(&other.body)
    }
}
