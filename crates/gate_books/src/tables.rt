use crate::fault::BooksFault;
use crate::serving::{FilesBook, files_book, served_by_commit};
use sqlite::types::ValueRef;
use sqlite::{Alter, Connection, Row};
use std::alloc::Global;
use std::io::{self, Read, Write};

// The tables, and a statement that shows the rows of each by their key.
const TABLES: [(&str, &str); 9] = [
    ("desk", "SELECT * FROM desk ORDER BY one"),
    ("people", "SELECT * FROM people ORDER BY name"),
    ("changes", "SELECT * FROM changes ORDER BY number"),
    (
        "marks",
        "SELECT * FROM marks ORDER BY change_no, kind, word",
    ),
    ("batches", "SELECT * FROM batches ORDER BY number"),
    ("members", "SELECT * FROM members ORDER BY batch, place"),
    ("statuses", "SELECT * FROM statuses ORDER BY batch, name"),
    ("answers", "SELECT * FROM answers ORDER BY id"),
    ("wanted", "SELECT * FROM wanted ORDER BY kind, place"),
];

/// Serves all lines over a book in two files in memory that keeps each delivery by `commit`, drops the answers, and prints the rows of the
/// tables: one on each line, the name of the table and the values of the columns with `|` between two.
pub(crate) fn print_committed<R: Read, W: Write>(
    alloc: Global,
    reader: &mut R,
    writer: &mut W,
) -> Result<(), BooksFault> {
    match book_committed(alloc, reader) {
        Ok(book) => print_all(book.into_connection(), writer),
        Err(fault) => Err(fault),
    }
}

// The book in its files after all lines.
fn book_committed<R: Read>(alloc: Global, reader: &mut R) -> Result<FilesBook, BooksFault> {
    match files_book(alloc) {
        Ok(book) => served_by_commit(alloc, book, reader, &mut io::sink()),
        Err(fault) => Err(fault),
    }
}

// Prints the rows of all tables of a database. It knows of no store, since one that is known is dear to prove.
fn print_all<S: Alter + Drop, W: Write>(
    connection: Connection<S>,
    writer: &mut W,
) -> Result<(), BooksFault> {
    let mut connection = connection;
    let printed = print_each(&mut connection, writer);
    drop(connection);
    printed
}

fn print_each<S: Alter, W: Write>(
    connection: &mut Connection<S>,
    writer: &mut W,
) -> Result<(), BooksFault> {
    for (table, sql) in TABLES {
        print_table(connection, writer, table, sql)?;
    }
    Ok(())
}

// Prints the rows that a statement shows, behind this name each.
fn print_table<S: Alter, W: Write>(
    connection: &mut Connection<S>,
    writer: &mut W,
    table: &str,
    sql: &str,
) -> Result<(), BooksFault> {
    for row in connection.query_all(sql, &[])? {
        print_row(writer, table, &row)?;
    }
    Ok(())
}

fn print_row<W: Write>(writer: &mut W, table: &str, row: &Row) -> Result<(), BooksFault> {
    write!(writer, "{table}")?;
    for column in 0..row.column_count() {
        write!(writer, "|")?;
        print_value(writer, row.get_ref(column)?)?;
    }
    writeln!(writer)?;
    Ok(())
}

fn print_value<W: Write>(writer: &mut W, value: ValueRef<'_>) -> Result<(), BooksFault> {
    match value {
        ValueRef::Int(number) => write!(writer, "{number}")?,
        ValueRef::Text(text) => writer.write_all(text)?,
        // No column may have such a value.
        _ => write!(writer, "?")?,
    }
    Ok(())
}
