// The laws of questions that are passed on to the host files.

ghost use Rattle.std.specs.Prelude.{◌≡◌};
ghost use Rattle.std.specs.FinMap as finmap;
ghost use Rattle.interaction_trees.specs.Tree.{result_of};
ghost use Rattle.hostfiles.specs.Hosts.{Host};
ghost use Rattle.hostfiles.specs.Files.{OwnFiles};
ghost use Rattle.file_calls.specs.FileQuestions.{FileQuestion};
ghost use Rattle.file_calls.specs.TableView.{file_answers};
ghost use Rattle.file_calls.specs.HostTrees.{AreSoundOwnFiles, IsFitting, host_tree, host_answers};
ghost use Rattle.file_calls.specs.Changes.{FileChange};
ghost use Rattle.file_calls.specs.Deletes.{own_after_change};

/// The answers of the host files determine the answers of the current files.
pub fn host_files_answer()
    ensures { (host : Host) (own : OwnFiles) → AreSoundOwnFiles host own → (q : FileQuestion) →
        result_of (host_answers host) (host_tree own q) ≡ file_answers host own q }
{}

/// What a run did is sound: this is so when nothing was done, and each fitting change keeps it so.
pub fn own_files_are_sound()
    ensures start { (host : Host) → AreSoundOwnFiles host finmap.empty }
    ensures change { (host : Host) (own : OwnFiles) (change : FileChange) → IsFitting host own change →
        AreSoundOwnFiles host own → AreSoundOwnFiles host (own_after_change change own) }
{}
