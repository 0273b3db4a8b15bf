//! Laws over the definitions alone.
ghost use Rattle.std.specs.Prelude.{◌≡◌, ◌≢◌, ◌≤◌, ℕ, List as Seq, length, Ok, Err, Some, IsUtf8};
ghost use Rattle.rl_types.specs.declared.frames.Frame.{Frame as SomeFrame};
ghost use Rattle.rl_types.specs.declared.frames.WireFault.TheVariants.{NoMemory};
ghost use Rattle.rl_wire.specs.Frames.{frame_at};
ghost use Rattle.rl_wire.specs.PutOut.{PutOutFits, TextsAreShort};
ghost use Rattle.rl_wire.specs.Sendable.{IsSendable};
ghost use Rattle.rl_wire.specs.Texts.{frame_text};

use rl_numbers::limits::MAX_FRAME_SIZE;

/// No bytes are read as want of memory: that answer comes from the allocator alone.
#[tactic(auto, using(crate::proofs::Named::frame_named))]
pub fn memory_is_no_fault_of_bytes()
    ensures { (bytes : Seq ℕ) → frame_at bytes ≢ Err NoMemory }
{}

/// Each frame that bytes are can be sent.
#[tactic(auto, using(crate::proofs::Fits::frame_fits))]
pub fn what_is_read_is_sendable()
    ensures { (bytes : Seq ℕ) (f : SomeFrame) → frame_at bytes ≡ Ok (Some f) → IsSendable f }
{}

/// The text of a frame that can be sent is read as the same frame, where it is UTF-8 and not too long.
#[tactic(auto, using(crate::proofs::Law::text_again))]
pub fn sendable_frames_read_back()
    ensures { (f : SomeFrame) → IsSendable f → IsUtf8 (frame_text f) → length (frame_text f) ≤ MAX_FRAME_SIZE → frame_at (frame_text f) ≡ Ok (Some f) }
{}

/// The text of a frame that can be sent has at most six bytes for each byte of its texts, 150 for each message and
/// presence item, 1,000 for each operation and object, 50 for each entry of a map that is made, 400 for each site and
/// cell of an object, and 2,000 more.
#[tactic(auto, using(crate::proofs::TextLengths::frame_length))]
pub fn texts_are_short()
    ensures { TextsAreShort }
{}

/// The text of a frame that holds what an entry or a page has, by the rules of puts and of pages, is not too long.
#[tactic(auto, using(crate::proofs::PutOut::put_out_fits))]
pub fn put_out_fits()
    ensures { PutOutFits }
{}
