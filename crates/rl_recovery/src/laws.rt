//! Laws over the definitions alone. Each is a function that does nothing: its contract is the law.
ghost use Rattle.std.specs.Prelude.{◌≡◌, ◌↔◌, ℕ, List as Seq, Some};
ghost use Rattle.rl_runs.specs.declared.commands.RecoveryKey.{RecoveryKey as Key};
ghost use Rattle.rl_recovery.specs.Examples.{Written, Read, NotRead};
ghost use Rattle.rl_recovery.specs.Keys.{key_of, key_text, IsRecoveryKey};
ghost use Rattle.rl_recovery.specs.Objects.{IsKeyText};

/// Each key that a text is can be written: its message serial has 53 bits, and its channels rise, each with a name of
/// 1 to 256 bytes.
#[tactic(auto, using(crate::proofs::Fits::key_fits))]
pub fn what_is_read_is_a_recovery_key()
    ensures { (text : Seq ℕ) (key : Key) → key_of text ≡ Some key → IsRecoveryKey key }
{}

/// The text of a key that clients give is read as the same key. So no two of them have one text.
#[tactic(auto, using(crate::proofs::Again::key_again))]
pub fn recovery_keys_read_back()
    ensures { (key : Key) → IsRecoveryKey key → key_of (key_text key) ≡ Some key }
{}

/// A text is a key exactly where it is a JSON object with the key's three members.
pub fn keys_are_objects()
    ensures { (text : Seq ℕ) (key : Key) → (key_of text ≡ Some key) ↔ IsKeyText text key }
{}

/// What small keys are written as, what small texts are read as, and which texts are no keys.
#[tactic(auto, using(crate::proofs::Tried::written, crate::proofs::Tried::is_read, crate::proofs::Tried::not_read))]
pub fn examples_of_keys()
    ensures written { Written }
    ensures read { Read }
    ensures not_read { NotRead }
{}
