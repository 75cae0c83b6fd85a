ghost use Rattle.std.specs.Prelude.{◌≡◌, ℕ, ◌+◌, ◌*◌, ◌/◌, ◌%◌, ◌<◌, ◌≤◌, ◌⊎◌, IfNone, IfSome, IsErr, OnErr, OnOk, length};
ghost use Rattle.replay.specs.Ring.{Rising, IsNewest, PushesIfAbove, DropsPast, HasCheckpoint, checkpoint_at, ring_with, start_step};

use circular_buffer::HeapCircularBuffer;
use machine::{RunNotes, STEP_LIMIT, SavedState, State};
use std::alloc::AllocError;

/// A step that a run reached, and what is kept of the state there.
#[derive(Drop)]
pub struct Checkpoint {
    pub step: u64,
    pub state: SavedState,
}

/// A due step that has no checkpoint, and the allocation that failed.
#[derive(Clone, Copy)]
pub struct LeftOut {
    pub step: u64,
    pub failure: AllocError,
}

/// The checkpoints of runs, the oldest first; the number of steps from one due checkpoint to the next; the notes of the runs; and the
/// last checkpoint that the last run left out.
#[derive(Drop)]
pub struct Checkpoints {
    pub spacing: u64,
    pub ring: HeapCircularBuffer<Checkpoint>,
    pub notes: RunNotes,
    pub left_out: Option<LeftOut>,
}

/// Returns the next step after `n` at which a checkpoint is due, or the limit if that comes first.
pub fn due_after(n: u64, spacing: u64, limit: u64) -> u64
    requires { (n < limit) × (limit ≤ STEP_LIMIT) × (0 < spacing) × (spacing ≤ 1000000000) }
    ensures later { (n < result) × (result ≤ limit) }
    ensures marked { (result % spacing ≡ 0) ⊎ (result ≡ limit) }
    ensures next { result ≤ (n / spacing + 1) * spacing }
    ensures first { (k : ℕ) → n < k → k < result → k % spacing ≡ 0 → ⊥ }
{
    let next = (n / spacing + 1) * spacing;
    if next < limit { next } else { limit }
}

/// Returns the greatest kept step, or 0 if there is none.
pub fn newest_step(ring: &HeapCircularBuffer<Checkpoint>) -> u64
    requires { Rising ring.now.items }
    ensures { IsNewest result ring.now.items }
{
    match ring.back() {
        Some(checkpoint) => checkpoint.step,
        None => 0,
    }
}

/// Returns the checkpoint of the greatest kept step that is not past the limit, if there is one.
pub fn latest_within(ring: &HeapCircularBuffer<Checkpoint>, limit: u64) -> Option<&Checkpoint>
    requires { Rising ring.now.items }
    ensures none { IfNone result (start_step limit ring.now.items ≡ 0) }
    ensures some { IfSome result (λ c. (c.now.step ≡ start_step limit ring.now.items)
        × HasCheckpoint ring.now.items c.now) }
    ensures room { length ring.now.items ≤ ring.now.capacity }
{
    let mut left = ring.len();
    while left > 0 {
        if let Some(checkpoint) = ring.get(left - 1) {
            if checkpoint.step <= limit {
                return Some(checkpoint);
            }
        }
        left -= 1;
    }
    None
}

/// Makes a checkpoint at `step` if that is above `newest`. It needs the notes of the looks up to there.
///
/// # Errors
///
/// Returns `Err` if an allocation for the checkpoint failed, or the one for the notes. The ring is then unchanged.
pub fn push_checkpoint(
    ring: &mut HeapCircularBuffer<Checkpoint>,
    newest: u64,
    step: u64,
    noted: Result<(), AllocError>,
    state: &mut State,
) -> Result<(), AllocError>
    ensures ring { PushesIfAbove newest ring.old ring.new (checkpoint_at step state.old.state) }
    ensures made { OnOk result (newest < step
        → ring.new ≡ ring_with ring.old (checkpoint_at step state.old.state)) }
    ensures left_out { OnErr result ((newest < step) × (ring.new ≡ ring.old)) }
    ensures noted { IsErr noted → ring.new ≡ ring.old }
    ensures state { state.new ≡ state.old }
{
    if newest < step {
        noted?;
        let kept = state.save()?;
        let _ = ring.push_back(Checkpoint { step, state: kept });
    }
    Ok(())
}

/// Drops the checkpoints past step `touch`.
pub fn drop_past(ring: &mut HeapCircularBuffer<Checkpoint>, touch: u64)
    requires { Rising ring.old.items }
    ensures parts { DropsPast touch ring.old.items ring.new.items }
    ensures capacity { ring.new.capacity ≡ ring.old.capacity }
{
    while let Some(checkpoint) = ring.back() {
        if checkpoint.step <= touch {
            return;
        }
        let _ = ring.pop_back();
    }
}
