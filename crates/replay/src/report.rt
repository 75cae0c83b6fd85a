ghost use Rattle.std.specs.Prelude.{◌≡◌, ◌≤◌, IsSome, length, option_copied, slice_get, slice_index};
ghost use Rattle.std.specs.Option.{option_and_then, option_map};
ghost use Rattle.std.specs.FinMap.{contains_key};
ghost use Rattle.hostfiles.specs.Order.{IsLeastAbove};
ghost use Rattle.hostfiles.specs.Files.{files};
ghost use Rattle.hostfiles.specs.FileView.{view_own};
ghost use Rattle.machine.specs.ChangedFiles.{contents_in};
ghost use Rattle.replay.specs.Fits.{kept_length};
ghost use Rattle.replay.specs.LastState.{state_left_by};
ghost use Rattle.machine.specs.PlainState.{plain_run};
ghost use Rattle.machine.specs.PlainLaid.{plain_run_of};
ghost use Rattle.machine.specs.RunCodes.{equal_runs-prop};

use hostfiles::{FileView, Record, next_changed};
use machine::{BlankMarks, Cause, HostFiles, Journal, Name, Regs, SavedState, Session};

/// A session and its last run: the console text of its runs; what is kept of the state in which the last run ended, `None` before
/// the first run and once the next run begins; and memory for the marks of the next run, `None` before the first run.
#[derive(Drop)]
pub struct LastRun {
    pub session: Session,
    pub text: Vec<u8>,
    pub end: Option<SavedState>,
    pub marks: Option<BlankMarks>,
}

/// The result of a rerun: the end of the run of the session. It borrows the runner and owns no memory.
#[derive(Clone, Copy)]
pub struct Report<'a> {
    pub(crate) last_run: &'a LastRun,
    pub(crate) steps: u64,
    pub(crate) cause: Cause,
    ghost ended: { IsSome last_run.now.end },
    ghost fits: { kept_length last_run.now.end ≤ length last_run.now.text.items },
    ghost of_run: { plain_run_of last_run.now.session
        (record { state = state_left_by last_run.now; steps = steps; cause = cause })
        ≡ plain_run last_run.now.session } by { equal_runs-prop _ _ },
}

impl Report<'_> {
    ghost use Rattle.replay.specs.Report.{is_left_changed, run_of, session_of};

    /// Returns why the run ended.
    pub fn cause(&self) -> Cause
        ensures { result ≡ (run_of self.now).cause }
    {
        self.cause
    }

    /// Returns the number of steps of the run, counted from its start.
    pub fn steps(&self) -> u64
        ensures { result ≡ (run_of self.now).steps }
    {
        self.steps
    }

    /// Returns the registers at the end.
    pub fn regs(&self) -> Regs
        ensures { result ≡ (run_of self.now).state.core.regs }
    {
        match &self.last_run.end {
            Some(kept) => kept.regs(),
            None => unreachable!(),
        }
    }

    /// Returns all bytes that were sent to the console.
    pub fn text(&self) -> &[u8]
        ensures { result.now ≡ (run_of self.now).state.core.desk.text }
    {
        match &self.last_run.end {
            Some(kept) => &self.last_run.text[..kept.text_length()],
            None => unreachable!(),
        }
    }

    /// Returns the byte of a cell at the end.
    pub fn cell(&self, a: u16) -> u8
        ensures { result ≡ slice_index (run_of self.now).state.memory a }
    {
        match &self.last_run.end {
            Some(kept) => kept.cell(&self.last_run.session, a),
            None => unreachable!(),
        }
    }

    /// Returns whether there is a file of this name at the end.
    pub fn has(&self, name: &Name) -> bool
        ensures { result ≡ contains_key (run_of self.now).state.files name.now }
    {
        self.file(name).is_there()
    }

    /// Returns the number of records of a file at the end, or `None` if there is no such file.
    pub fn records(&self, name: &Name) -> Option<u32>
        ensures { result ≡ option_map length (contents_in (run_of self.now).state.files name.now) }
    {
        self.file(name).records()
    }

    /// Returns a record of a file at the end, zeros for a hole, or `None` if there is no such file or it has fewer records.
    pub fn record(&self, name: &Name, number: u32) -> Option<Record>
        ensures { result
            ≡ option_and_then (λ records. slice_get records number)
            (contents_in (run_of self.now).state.files name.now) }
    {
        self.file(name).contents_record(number).copied()
    }

    /// Returns the name of the next file, in the order of keys, that the run left different from its host file: the first one after
    /// `after`, or the first of all if that is `None`.
    ///
    /// # Example
    ///
    /// All changed files, in order; a file that the run deleted has no records:
    ///
    /// ```text
    /// let mut after: Option<Name> = None;
    /// while let Some(name) = report.next_changed(after.as_ref()) {
    ///     match report.records(&name) {
    ///         Some(count) => { /* report.record(&name, number) for each number below count */ }
    ///         None => { /* the file is gone */ }
    ///     }
    ///     after = Some(name);
    /// }
    /// ```
    pub fn next_changed(&self, after: Option<&Name>) -> Option<Name>
        ensures { IsLeastAbove (option_copied after.entry) (is_left_changed self.now) result }
    {
        match next_changed(self.files(), self.journal(), after) {
            Some(changed) => Some(changed.name),
            None => None,
        }
    }

    // Finds the file of this name at the end.
    fn file(&self, name: &Name) -> FileView<'_>
        ensures files { files result.host.now (view_own result) ≡ (run_of self.now).state.files }
        ensures key { result.key ≡ name.now }
    {
        FileView::find(self.files(), self.journal(), &name.key())
    }

    /// Returns the host files of the session.
    pub fn files(&self) -> &HostFiles
        ensures { result.now ≡ (session_of self.now).files }
    {
        self.last_run.session.files()
    }

    /// Returns what the run did to the files. Laid over the host files, it is the files at the end.
    pub fn journal(&self) -> &Journal
        ensures { files (session_of self.now).files result.now.entries ≡ (run_of self.now).state.files }
    {
        match &self.last_run.end {
            Some(kept) => kept.journal(),
            None => unreachable!(),
        }
    }
}
