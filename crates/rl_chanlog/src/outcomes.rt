// The last outcome of each connection.
ghost use Rattle.std.specs.Prelude.{◌≡◌, ◌≢◌, ℕ, [], OnOk, OnErr, IsOk, Some, None, if◌then◌else◌, ◌==◌};
ghost use Rattle.rl_chanlog.specs.Outcomes.{HasPlace, IsPlaced, kept_in, outcome_in};

use rl_events::Outcome;
use rl_ids::NoMemory;
use std::alloc::Global;
use std::collections::HashMap;
use std::marker::Model;

// Of each connection that has a place, by its number, its last serial and outcome, once there is one.
#[derive(Drop)]
pub struct Outcomes {
    last: HashMap<u32, Option<(u64, Outcome)>>,
}

impl Model for Outcomes {
    ghost use Rattle.rl_chanlog.specs.Outcomes.{OutcomesView};

    ghost Value = { OutcomesView };

    ghost view = { λ o. record { entries = o.last.entries } };
}

impl Outcomes {
    // No outcomes. It takes no memory.
    pub fn new(alloc: Global) -> Outcomes
        ensures { result.entries ≡ [] }
    {
        Outcomes {
            last: HashMap::new(alloc),
        }
    }

    // Gives the connection a place of its own, where it has none.
    pub fn ready(&mut self, conn: u32) -> Result<(), NoMemory>
        ensures same { (other : ℕ) → outcome_in other self.new ≡ outcome_in other self.old }
        ensures ready { OnOk result (HasPlace conn self.new) }
        ensures others { (other : ℕ) → HasPlace other self.old → HasPlace other self.new }
    {
        place(&mut self.last, conn)
    }

    // Puts a serial and its outcome in the place of the connection's last ones. It takes no memory where the
    // connection has a place.
    pub fn put(&mut self, conn: u32, serial: u64, outcome: Outcome) -> Result<(), NoMemory>
        ensures ok { OnOk result ((other : ℕ) → outcome_in other self.new ≡ (if conn == other then Some (serial, outcome) else outcome_in other self.old)) }
        ensures err { OnErr result ((other : ℕ) → outcome_in other self.new ≡ outcome_in other self.old) }
        ensures ready { HasPlace conn self.old → IsOk result }
        ensures others { (other : ℕ) → HasPlace other self.old → HasPlace other self.new }
    {
        write(&mut self.last, conn, (serial, outcome))
    }

    // The last serial and outcome of a connection.
    pub fn get(&self, conn: u32) -> Option<(u64, Outcome)>
        ensures { result ≡ outcome_in conn self.now }
    {
        read(&self.last, conn)
    }

    // Forgets a connection, and gives up its place.
    pub fn remove(&mut self, conn: u32)
        ensures others { (other : ℕ) → conn ≢ other → HasPlace other self.old → HasPlace other self.new }
        ensures forgot { (other : ℕ) → outcome_in other self.new ≡ (if conn == other then None else outcome_in other self.old) }
    {
        give_up(&mut self.last, conn);
    }
}

fn place(last: &mut HashMap<u32, Option<(u64, Outcome)>>, conn: u32) -> Result<(), NoMemory>
    ensures same { (other : ℕ) → kept_in other last.new.entries ≡ kept_in other last.old.entries }
    ensures ready { OnOk result (IsPlaced conn last.new.entries) }
    ensures others { (other : ℕ) → IsPlaced other last.old.entries → IsPlaced other last.new.entries }
{
    if last.get(&conn).is_some() {
        return Ok(());
    }
    last.insert(conn, None)?;
    Ok(())
}

fn write(
    last: &mut HashMap<u32, Option<(u64, Outcome)>>,
    conn: u32,
    outcome: (u64, Outcome),
) -> Result<(), NoMemory>
    ensures ok { OnOk result ((other : ℕ) → kept_in other last.new.entries ≡ (if conn == other then Some outcome else kept_in other last.old.entries)) }
    ensures err { OnErr result ((other : ℕ) → kept_in other last.new.entries ≡ kept_in other last.old.entries) }
    ensures ready { IsPlaced conn last.old.entries → IsOk result }
    ensures others { (other : ℕ) → IsPlaced other last.old.entries → IsPlaced other last.new.entries }
{
    last.insert(conn, Some(outcome))?;
    Ok(())
}

fn read(last: &HashMap<u32, Option<(u64, Outcome)>>, conn: u32) -> Option<(u64, Outcome)>
    ensures { result ≡ kept_in conn last.now.entries }
{
    match last.get(&conn) {
        Some(kept) => *kept,
        None => None,
    }
}

fn give_up(last: &mut HashMap<u32, Option<(u64, Outcome)>>, conn: u32)
    ensures others { (other : ℕ) → conn ≢ other → IsPlaced other last.old.entries → IsPlaced other last.new.entries }
    ensures forgot { (other : ℕ) → kept_in other last.new.entries ≡ (if conn == other then None else kept_in other last.old.entries) }
{
    last.remove(&conn);
}
