// The line that `check` writes of a book.
ghost use Rattle.std.specs.Prelude.{◌≡◌, ◌≤◌, ◌+◌, ◌++◌, length, decimal};
ghost use Rattle.ecam_spec.specs.Summary as spec;
ghost use Rattle.book_model.specs.Sealed.{the_book};

use crate::block::put;
use arrayvec::ArrayVec;
use book_model::Book;
use itoa::Buffer;

// Five numbers of at most 40 digits, and the words between them, take fewer bytes.
pub(crate) type Summary = ArrayVec<u8, 256>;

// Appends a word and a number.
fn put_count(line: &mut Summary, word: &str, count: usize)
    requires room { length line.old.items + length word.now + 40 ≤ 256 }
    ensures text { line.new.items ≡ line.old.items ++ word.now ++ decimal count }
    ensures short { length line.new.items ≤ length line.old.items + length word.now + 40 }
{
    let mut buffer = Buffer::new();
    put(line, word.as_bytes());
    put(line, buffer.format(count).as_bytes());
}

// How many alerts, parameters, memos, pages and slots the book has.
#[tactic(auto, unfolding(ecam_spec::specs::Summary::summary))]
pub(crate) fn summary(book: &Book) -> Summary
    ensures { result.items ≡ spec.summary (the_book book.now) }
{
    let mut line = ArrayVec::new();
    put_count(&mut line, "OK alerts ", book.alerts().len());
    put_count(&mut line, " params ", book.params().len());
    put_count(&mut line, " memos ", book.memos().len());
    put_count(&mut line, " pages ", book.pages().len());
    put_count(&mut line, " slots ", book.slots());
    put(&mut line, b"\n");
    line
}
