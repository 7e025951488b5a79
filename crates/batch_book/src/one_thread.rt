//! The runtime of one thread as a batch's.

use crate::work::work_on;
use batch_alone::{Closed, Runtime, Worked};
use batch_jobs::Job;
use conversion_book::{Book, Closed as Left, NoMemory};
use modules_conf::{Bindings, Conf};
use outside::Library;
use std::alloc::{AllocError, Global};
use step_buffers::Buffers;

/// A runtime of one thread over a library.
#[derive(Drop)]
pub struct OneThread<L: Library> {
    book: Book<L>,
}

impl<L: Library> Runtime for OneThread<L> {
    ghost use Rattle.batch_book.specs.Books.{book_of};

    type Library = L;

    ghost book = { λ r. book_of r.book };

    fn start(
        alloc: Global,
        conf: &Conf,
        bindings: &Bindings,
        library: L,
        folder: &str,
        pages: u32,
        limit: u32,
    ) -> Result<OneThread<L>, L> {
        match Book::new(alloc, conf, bindings, library, folder, pages, limit) {
            Ok(book) => Ok(OneThread { book }),
            Err(NoMemory { library }) => Err(library),
        }
    }

    fn work(
        &mut self,
        alloc: Global,
        job: &Job,
        input: &[u8],
        buffers: Buffers,
    ) -> Result<(Worked, Buffers), AllocError> {
        work_on(&mut self.book, job, input, buffers)
    }

    fn done(self) -> Closed<L> {
        let OneThread { book } = self;
        let Left { library, journal } = book.done();
        Closed { library, journal }
    }
}
