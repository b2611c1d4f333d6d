// The book of the rows.
use book_checker::seal;
use book_model::{Book, LoadError};
use book_reader::read_book;
use std::alloc::{AllocError, Global};

// Five alerts. The first has to be confirmed for 0.3 s, the second is inhibited in the phases 3, 4 and 5; both explain the
// fourth, and the second explains the third too. By level and sound they are a caution with a chime, a warning, a caution
// without a sound, a second warning, and a caution of level 1.
const BOOK: &str = "version = 1\nsystems = [\"S\"]\n\
[[alert]]\nname = \"slow\"\ntitle = \"T\"\nsystem = \"S\"\nlevel = 2\nwhen = \"true\"\nsound = \"sc\"\nconfirm = 3\nsecondary = [\"last\"]\n\
[[alert]]\nname = \"inhibited\"\ntitle = \"T\"\nsystem = \"S\"\nlevel = 3\nwhen = \"true\"\nsound = \"crc\"\ninhibit = [3, 4, 5]\nsecondary = [\"third\", \"last\"]\n\
[[alert]]\nname = \"third\"\ntitle = \"T\"\nsystem = \"S\"\nlevel = 2\nwhen = \"true\"\nsound = \"none\"\n\
[[alert]]\nname = \"last\"\ntitle = \"T\"\nsystem = \"S\"\nlevel = 3\nwhen = \"true\"\nsound = \"cav\"\n\
[[alert]]\nname = \"alone\"\ntitle = \"T\"\nsystem = \"S\"\nlevel = 1\nwhen = \"true\"\n";

/// The book of the rows. A fault of its text counts as want of memory here.
pub(crate) fn small_book(alloc: Global) -> Result<Book, AllocError> {
    let draft = match read_book(alloc, BOOK.as_bytes()) {
        Ok(draft) => draft,
        Err(LoadError::Memory) => return Err(AllocError),
        Err(LoadError::Fault(_)) => return Err(AllocError),
    };
    match seal(alloc, draft) {
        Ok(book) => Ok(book),
        Err(LoadError::Memory) => Err(AllocError),
        Err(LoadError::Fault(_)) => Err(AllocError),
    }
}
