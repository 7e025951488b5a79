//! The work of one job whose input was taken.

ghost use Rattle.std.specs.Prelude.{◌≡◌, ◌≤◌, ◌<◌, ◌+◌, ◌*◌, length, IfOk, IfErr, MatchResult};
ghost use Rattle.text_lines.specs.Limits.{longest_text};
ghost use Rattle.runtime_histories.specs.Legal.{Legal};
ghost use Rattle.conversion_book.specs.Runtime.{setting_of};
ghost use Rattle.conversion_book.specs.Openings.{Opens, Refuses};
ghost use Rattle.batch_jobs.specs.Jobs.{HasShortNames, line_of};
ghost use Rattle.batch_runs.specs.Meanings.{asked_in, is_entered};
ghost use Rattle.batch_runs.specs.Takings.{Got};
ghost use Rattle.batch_alone.specs.Books.{HasPlace};
ghost use Rattle.batch_alone.specs.Readings.{length_made, work_of};
ghost use Rattle.batch_alone.specs.Steps.{Does, IsCut};
ghost use Rattle.batch_book.specs.Books.{book_of, is_full};

use batch_alone::Worked;
use batch_jobs::Job;
use conversion_book::Book;
use outside::Library;
use runtime_histories::Refusal;
use std::alloc::AllocError;
use std::marker::Brand;
use std::sync::ledger::{Blank, Ledger};
use step_buffers::Buffers;
use work_steps::Steps;

/// Opens the pair of a job as caller 1, with a counter of steps of its own.
fn opened<L: Library, K: Ledger>(
    ledger: Blank,
    book: &mut Book<L>,
    job: &Job,
) -> Result<u64, Refusal>
    requires name { ledger.name ≡ K.name }
    requires parts { ledger.parts ≡ K.parts }
    requires some { 0 < ledger.parts }
    requires names { HasShortNames job.now }
    ensures legal { Legal (setting_of book.old) book.old.books.journal }
    ensures ok { IfOk result (Opens book.old book.new 1
        (asked_in (setting_of book.old) (line_of job.now).from)
        (asked_in (setting_of book.old) (line_of job.now).to)) }
    ensures err { IfErr result (Refuses book.old book.new 1
        (asked_in (setting_of book.old) (line_of job.now).from)
        (asked_in (setting_of book.old) (line_of job.now).to)) }
{
    let mut steps: Steps<K> = Steps::new(ledger);
    let _journal = book.journal();
    book.open_pair(1, job.from.as_slice(), job.to.as_slice(), &mut steps)
}

/// Whether a refusal leaves an entry.
fn is_entered(why: &Refusal) -> bool
    ensures { result ≡ is_entered why.now }
{
    match why {
        Refusal::JournalFull { .. } => false,
        Refusal::Memory => false,
        _ => true,
    }
}

/// Whether a refusal says that the journal is full.
fn is_full(why: &Refusal) -> bool
    ensures { result ≡ is_full why.now }
{
    match why {
        Refusal::JournalFull { .. } => true,
        _ => false,
    }
}

/// Opens the pair of a job, converts the whole input, and closes the pair.
pub fn work_on<L: Library>(
    book: &mut Book<L>,
    job: &Job,
    input: &[u8],
    buffers: Buffers,
) -> Result<(Worked, Buffers), AllocError>
    requires names { HasShortNames job.now }
    requires short { length input.now ≤ longest_text }
    requires idle { (book_of book.old).live ≡ 0 }
    requires place { HasPlace (book_of book.old) }
    ensures done { MatchResult result
        (λ r. Does (book_of book.old) (book_of book.new) (line_of job.now) (Got input.now)
        (work_of r.0 r.1.output.items))
        (λ _. IsCut (book_of book.old) (book_of book.new) (line_of job.now)) }
    ensures room { IfOk result (λ r. length_made (work_of r.0 r.1.output.items)
        ≤ 8 * length input.now + 8) }
{
    match opened::<L, Brand>(Blank::new(1), book, job) {
        Ok(number) => {
            let made = book.convert_whole(number, buffers, input);
            book.close_desc(1, number);
            match made {
                Ok((buffers, finish)) => Ok((Worked::Converted(finish), buffers)),
                Err(_) => Err(AllocError),
            }
        }
        Err(why) => {
            if is_full(&why) {
                unreachable!();
            }
            if is_entered(&why) {
                Ok((Worked::Denied(why), buffers))
            } else {
                Err(AllocError)
            }
        }
    }
}
