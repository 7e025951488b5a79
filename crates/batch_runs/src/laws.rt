//! Laws of runs.

ghost use Rattle.std.specs.Prelude.{◌≡◌, List, Option, ℕ};
ghost use Rattle.outside.specs.Shelves.{Shelf};
ghost use Rattle.outside.specs.declared.sinks.Sent.{Sent};
ghost use Rattle.runtime_histories.specs.declared.entries.Entry.{Entry};
ghost use Rattle.batch_jobs.specs.Jobs.{JobLine, Text};
ghost use Rattle.batch_words.specs.Asked.{Request};
ghost use Rattle.batch_runs.specs.declared.cause.Cause.{Cause};
ghost use Rattle.batch_runs.specs.Works.{Work};
ghost use Rattle.batch_runs.specs.Histories.{IsHistory};
ghost use Rattle.batch_runs.specs.Batches.{Batch, World};
ghost use Rattle.batch_runs.specs.Runs.{Ran};
ghost use Rattle.batch_runs.specs.Plain.{IsBatch, IsDetermined};
ghost use Rattle.batch_runs.specs.Completeness.{Completes, IsFair};
ghost use Rattle.batch_runs.specs.Shares.{IsShared, Share};
ghost use Rattle.runtime_histories.specs.Settings.{Setting};

/// Where two names have one refusal or one conversion of an input, jobs over files have one batch.
pub fn one_batch()
    ensures { (s : Setting) (jobs : List JobLine) (files : Shelf) (b c : Batch) →
        IsDetermined s → IsBatch s jobs files b → IsBatch s jobs files c → b ≡ c }
{}

/// With valid words, accepted texts, a store with room and no fault, a run comes to the end that its
/// batch means, or memory was wanting.
pub fn fair_runs_complete()
    ensures { (words : List Text) (old new : World) (request : Request) (texts : List Text) (files : Shelf)
        (cause : Cause) (history : List Entry) →
        Ran words old new cause history → IsFair words old new request texts files →
        Completes old new request files cause history }
{}

/// Where each worker's own entries are those of the jobs that it drew, and each job was drawn once,
/// the history is that of the jobs.
pub fn shared_jobs_are_all()
    ensures { (s : Setting) (workers : ℕ) (jobs : List JobLine) (works : List Work) (shares : ℕ → List Share)
        (history : List Entry) →
        IsShared s workers jobs works shares history → IsHistory s workers jobs works history }
{}
