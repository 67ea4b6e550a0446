use crate::by_commit::ByCommit;
use crate::fault::BooksFault;
use gate_hook::serve_lines;
use gate_sql::{SqlBook, book_in_files_in_memory};
use gate_store::{Book, Keeper};
use sqlite::{FileStore, Files, Options};
use sqlite_disk::Memory;
use std::alloc::Global;
use std::io::{Read, Write};

/// A book in a database in two files in memory.
pub(crate) type FilesBook = SqlBook<FileStore<Memory>>;

// Before each commit the log is copied into the database file.
const OPTIONS: Options = Options {
    cache_pages: 2000,
    spill_pages: 2000,
    checkpoint_frames: 1,
    seed: 1,
};

/// A book in two new files in memory.
pub(crate) fn files_book(alloc: Global) -> Result<FilesBook, BooksFault> {
    let files = Files {
        log: Memory::new(alloc),
        db: Memory::new(alloc),
    };
    if !files.may_be_used() {
        drop(files);
        return Err(BooksFault::Rows);
    }
    match book_in_files_in_memory(alloc, files, OPTIONS) {
        Ok(book) => Ok(book),
        Err(fault) => Err(BooksFault::from(fault)),
    }
}

/// Serves all lines over a book, and gives the book back. It knows no more of the book than that it is one: a keeper whose book is
/// known is dear to prove where it is let go.
pub(crate) fn served<B: Book + Drop, R: Read, W: Write>(
    alloc: Global,
    book: B,
    reader: &mut R,
    writer: &mut W,
) -> Result<B, BooksFault> {
    let mut keeper = Keeper::new(book);
    match serve_lines(alloc, &mut keeper, reader, writer) {
        Ok(_) => Ok(keeper.into_book()),
        Err(fault) => {
            drop(keeper);
            Err(BooksFault::from(fault))
        }
    }
}

/// The same, but each delivery is kept by `commit`.
pub(crate) fn served_by_commit<B: Book + Drop, R: Read, W: Write>(
    alloc: Global,
    book: B,
    reader: &mut R,
    writer: &mut W,
) -> Result<B, BooksFault> {
    match served(alloc, ByCommit { book }, reader, writer) {
        Ok(left) => Ok(left.book),
        Err(fault) => Err(fault),
    }
}
