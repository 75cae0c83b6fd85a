ghost use Rattle.std.specs.Prelude.{◌≡◌, ◌+◌, ◌^◌, ◌<◌, ◌≤◌, [], IfOk, IfErr, OnOk, OnErr, MatchResult, slice_get};
ghost use Rattle.std.specs.Borrow.{sem};
ghost use Rattle.machine.specs.Machine.{session_answers};
ghost use Rattle.replay.specs.PrefixDependence.{PrefixDependence};
ghost use Rattle.machine.specs.PlainState.{plain_run};
ghost use Rattle.machine.specs.PlainLaid.{PlainRunIsCold};
ghost use Rattle.replay.specs.Edits.{edited};
ghost use Rattle.replay.specs.EditAnswers.{AnswersEdit, EditAllocates};
ghost use Rattle.replay.specs.RunnerView.{DropsOldest, SameOptions, KeepsUntouched, AllStand, AddsDueTo, AddsEachDueTo, TicksTo};
ghost use Rattle.replay.specs.RunnerView.{kept_steps, rerun_start, with_no_checkpoint};

use crate::change::{accept, apply, touch_of};
use crate::edit::{Edit, EditError};
use crate::options::{Options, OptionsError};
use crate::report::{LastRun, Report};
use crate::rerun::run_again;
use crate::ring::{Checkpoints, drop_past};
use circular_buffer::HeapCircularBuffer;
use first_looks::FirstLooks;
use machine::{Meter, Noting, RunNotes, STEP_LIMIT, Session};
use std::alloc::{AllocError, Global};
use std::marker::Model;

/// A session that can be edited and run again, with checkpoints of its runs.
///
/// # Example
///
/// Runs a session, replaces the first byte of its script, and runs it again from the last checkpoint before the step that read that
/// byte. The crate `embedding` is a complete program of this kind.
///
/// ```text
/// let mut runner = Runner::new(alloc, session, Options { spacing: 10_000, slots: 64 })?;
/// let mut meter = Meter::new();
/// let first = runner.rerun(&mut meter)?.steps();
/// runner.edit(Edit::Replace(0, Bytes::new(b"N".to_vec(alloc)?)))?;
/// let report = runner.rerun(&mut meter)?;
/// let executed = meter.count() - first; // report.steps() minus the step of that checkpoint
/// ```
#[derive(Drop)]
pub struct Runner {
    last_run: LastRun,
    checkpoints: Checkpoints,
}

impl Model for Runner {
    ghost use Rattle.std.specs.Prelude.{map};
    ghost use Rattle.std.specs.Coded.{codes};
    ghost use Rattle.machine.specs.StateView.{cells_code, changes_code, files_code};
    ghost use Rattle.replay.specs.Resuming.{left_out_step};
    ghost use Rattle.replay.specs.RunnerView.{RunnerView, IsSoundRunner, checkpoint_with_text};

    ghost Value = { RunnerView };

    ghost coded = { Prim.hlevel (codes, cells_code, changes_code, files_code) };

    ghost view = { λ r. record {
      session = r.last_run.session;
      spacing = r.checkpoints.spacing;
      slots = r.checkpoints.ring.capacity;
      checkpoints = map (checkpoint_with_text r.last_run.text.items) r.checkpoints.ring.items;
      left_out = left_out_step r.checkpoints;
    } };

    ghost invariant = { λ r. IsSoundRunner r.last_run.session r.last_run.text.items r.checkpoints };
}

impl Runner {
    ghost use Rattle.replay.specs.Lending.{EndsAs};
    ghost use Rattle.replay.specs.Options.{RefusedBy, refusal_of};
    ghost use Rattle.replay.specs.Report.{run_of, session_of};

    /// Returns a runner for the session, with no checkpoint.
    ///
    /// # Errors
    ///
    /// Returns the first refusal that applies to the options.
    pub fn new(alloc: Global, session: Session, options: Options) -> Result<Runner, OptionsError>
        ensures ok { IfOk result (λ r. r ≡ with_no_checkpoint session options) }
        ensures accepted { OnOk result (refusal_of options ≡ None) }
        ensures refused { IfErr result (RefusedBy options) }
    {
        if options.spacing == 0 || options.spacing > 1_000_000_000 {
            return Err(OptionsError::Spacing);
        }
        if options.slots == 0 || options.slots > 4096 {
            return Err(OptionsError::Slots);
        }
        Ok(Runner::with_valid_options(alloc, session, options)?)
    }

    /// Returns a runner for options that are known to be within their ranges. `Err` means out of memory.
    pub fn with_valid_options(
        alloc: Global,
        session: Session,
        options: Options,
    ) -> Result<Runner, AllocError>
        requires { refusal_of options ≡ None }
        ensures { IfOk result (λ r. r ≡ with_no_checkpoint session options) }
    {
        let ring = HeapCircularBuffer::with_capacity(alloc, options.slots)?;
        Ok(Runner {
            last_run: LastRun {
                session,
                text: Vec::new(alloc),
                end: None,
                marks: None,
            },
            checkpoints: Checkpoints {
                spacing: options.spacing,
                ring,
                notes: RunNotes {
                    looks: FirstLooks::new(alloc),
                    noting: Noting::Looks,
                },
                left_out: None,
            },
        })
    }

    /// Returns the current session.
    pub fn session(&self) -> &Session
        ensures { result.now ≡ self.now.session }
    {
        &self.last_run.session
    }

    /// Returns the step of the checkpoint at `index`, counted from 0 for the oldest.
    pub fn kept(&self, index: usize) -> Option<u64>
        ensures { result ≡ slice_get (kept_steps self.now) index }
    {
        match self.checkpoints.ring.get(index) {
            Some(checkpoint) => Some(checkpoint.step),
            None => None,
        }
    }

    /// Returns the last step of the last rerun at which a checkpoint was due and was left out because an allocation failed, if there is
    /// one.
    pub fn left_out(&self) -> Option<u64>
        ensures { result ≡ self.now.left_out }
    {
        match self.checkpoints.left_out {
            Some(left_out) => Some(left_out.step),
            None => None,
        }
    }

    /// Drops the `count` oldest checkpoints, or all if there are fewer.
    pub fn drop_oldest(&mut self, count: u64)
        ensures dropped { DropsOldest count self.old self.new }
        ensures stand { AllStand self.new }
    {
        let len = self.checkpoints.ring.len();
        if count < len as u64 {
            self.checkpoints.ring.truncate_front(len - count as usize);
        } else {
            self.checkpoints.ring.clear();
        }
    }

    /// Applies an edit. Exactly the checkpoints up to the touch are left: up to the first step with a look that the edited session
    /// answers differently. What the last rerun left out stays the same.
    ///
    /// # Errors
    ///
    /// Returns the first refusal that applies; the runner is then unchanged.
    pub fn edit(&mut self, edit: Edit) -> Result<(), EditError>
        ensures answer { AnswersEdit (edited self.old.session edit) result self.new.session }
        ensures memory { result ≡ Err EditError.OutOfMemory → EditAllocates edit }
        ensures options { SameOptions self.old self.new }
        ensures left_out { self.new.left_out ≡ self.old.left_out }
        ensures kept { OnOk result
            (KeepsUntouched (session_answers self.old.session) (session_answers self.new.session)
            self.old.checkpoints self.new.checkpoints) }
        ensures stand { AllStand self.new }
        ensures err { OnErr result (self.new ≡ self.old) }
    {
        let alloc = *self.last_run.text.allocator();
        let change = accept(alloc, &self.last_run.session, edit)?;
        let touch = touch_of(
            &self.checkpoints.notes.looks,
            &self.last_run.session,
            &change,
        );
        apply(&mut self.last_run.session, change)?;
        drop_past(&mut self.checkpoints.ring, touch);
        self.checkpoints.notes.looks.erase_from(touch);
        Ok(())
    }

    /// Runs the session from the greatest kept step that is not past its limit, or else from its start, and returns a report. Each due
    /// step that the run reached above the old checkpoints and after the one at `left_out` has been given a checkpoint, of which the
    /// newest remain. `left_out` is for this rerun alone.
    ///
    /// # Errors
    ///
    /// Returns `Err` if an allocation for the run fails. The session stays the same; new checkpoints may have been added, which
    /// replace the oldest in a full ring.
    pub fn rerun(&mut self, meter: &mut Meter) -> Result<Report<'_>, AllocError>
        requires { meter.old ≤ 2 ^ 63 }
        ensures* ends { sem 𝓛 (EndsAs self.entry (λ n.
            (n.session ≡ self.old.session) × SameOptions self.old n × AllStand n
            × MatchResult result (λ r. AddsEachDueTo self.old n (run_of r).steps)
            (λ _. AddsDueTo self.old n self.old.session.limit))) }
        ensures run { IfOk result (λ r. run_of r ≡ plain_run self.old.session) }
        ensures session { IfOk result (λ r. session_of r ≡ self.old.session) }
        ensures ticked { IfOk result (λ r. meter.new + rerun_start self.old
            ≡ meter.old + (run_of r).steps) }
        ensures broken_off { OnErr result (TicksTo (session_answers self.old.session) self.old.session.limit
            (rerun_start self.old) meter.old meter.new) }
        ensures metered { meter.new ≤ meter.old + STEP_LIMIT }
        ensures rises { meter.old ≤ meter.new }
    {
        let alloc = *self.last_run.text.allocator();
        let (steps, cause) = run_again(alloc, &mut self.last_run, &mut self.checkpoints, meter)?;
        Ok(Report {
            last_run: &self.last_run,
            steps,
            cause,
        })
    }
}

/// Input that the first `n` steps did not read has no influence on them. If two sessions answer alike what these steps ask, they
/// have the same registers, desk and writes after `n` steps, each over its own memory and files.
pub fn prefix_dependence()
    ensures { PrefixDependence }
{}

/// The run of the plain machine, with all memory as one list and all files as one map, is the cold run.
pub fn plain_run_is_cold()
    ensures { PlainRunIsCold }
{}
