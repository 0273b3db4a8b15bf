ghost use Rattle.std.specs.Prelude.{◌≡◌, IfOk, IfSome, OnOk, OnErr};
ghost use Rattle.rl_clientmodel.specs.Keys.{before_mark, key_with, may_recover, recovered, recovery_key, with_key};
ghost use Rattle.rl_client.specs.Keys.{MayBeTaken};

use crate::Client;
use rl_ackq::AckQueue;
use rl_clientchannels::ClientChannels;
use rl_connsm::{gives_recovery_key, may_recover};
use rl_ids::{Copied, NoMemory, Text};
use rl_runs::RecoveryKey;
use std::alloc::Global;

// Going on where another client stood (RTN16).
impl Client {
    fn key_held(&self, alloc: Global) -> Result<Option<RecoveryKey>, NoMemory>
        ensures value { IfOk result (λ key. key ≡ key_with self.now.key self.now) }
        ensures fits { IfOk result (λ key. IfSome key (λ given. MayBeTaken given)) }
    {
        let Some(key) = &self.key else {
            return Ok(None);
        };
        Ok(Some(RecoveryKey {
            key: key.copy(alloc)?,
            next: self.queue.next(),
            serials: self.channels.serials(alloc)?,
        }))
    }

    /// With what another client can go on where this one stands (RTN16g): none exactly where no connection key is held, or
    /// the connection is CLOSING. It has the held serial of each channel that holds one, whatever the channel's state.
    /// It is one that [`recover`](Client::recover) may be given.
    pub fn recovery_key(&self, alloc: Global) -> Result<Option<RecoveryKey>, NoMemory>
        ensures value { IfOk result (λ key. key ≡ recovery_key self.now) }
        ensures fits { IfOk result (λ key. IfSome key (λ given. MayBeTaken given)) }
    {
        if gives_recovery_key(self.conn) {
            return self.key_held(alloc);
        }
        Ok(None)
    }

    fn may_recover(&self) -> bool
        ensures { result ≡ may_recover self.now }
    {
        may_recover(self.conn)
            && self.channels.is_empty()
            && self.key.is_none()
            && self.queue.is_empty()
    }

    fn go_on(&mut self, alloc: Global, key: &RecoveryKey) -> Result<(), NoMemory>
        requires { MayBeTaken key.now }
        ensures new { OnOk result (self.new ≡ with_key key.now self.old) }
        ensures err { OnErr result (self.new ≡ self.old) }
    {
        let channels = ClientChannels::from_serials(alloc, key.serials.as_slice())?;
        let held = key.key.copy(alloc)?;
        let id = before_mark(alloc, &key.key)?;
        let mut queue = AckQueue::new(alloc);
        queue.start_at(key.next);
        self.key = Some(held);
        self.id = Some(id);
        self.queue = queue;
        self.channels = channels;
        Ok(())
    }

    /// Goes on with a recovery key (RTN16f): the next message serial is at most
    /// [`MAX_MESSAGE_SERIAL`](rl_numbers::limits::MAX_MESSAGE_SERIAL), and the names of the channels rise. It answers
    /// false, and changes nothing, exactly where the client is not INITIALIZED, knows a channel, holds a key or has a
    /// pending frame. `NoMemory` leaves all as before.
    pub fn recover(&mut self, alloc: Global, key: &RecoveryKey) -> Result<bool, NoMemory>
        requires { MayBeTaken key.now }
        ensures done { IfOk result (λ done. done ≡ may_recover self.old) }
        ensures new { OnOk result (self.new ≡ recovered key.now self.old) }
        ensures err { OnErr result (self.new ≡ self.old) }
    {
        if !self.may_recover() {
            return Ok(false);
        }
        self.go_on(alloc, key)?;
        Ok(true)
    }
}

// The connection's id in a key: its text before the first `!`, or the whole where it has none.
#[tactic(auto, using(crate::proofs::Marks::front_is, crate::proofs::Marks::whole_is))]
fn before_mark(alloc: Global, key: &Text) -> Result<Text, NoMemory>
    ensures { IfOk result (λ id. id ≡ before_mark key.now) }
{
    let text = key.as_str();
    match text.split_once('!') {
        Some((front, _)) => Text::from_str(alloc, front),
        None => Text::from_str(alloc, text),
    }
}
