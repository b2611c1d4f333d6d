//! Migrates a book: prints its document as one of version 2 that says the same.
#![tactic(auto)]

mod laws;
mod migration;
mod order;
#[cfg(test)]
mod tests;

pub use laws::{
    a_book_says_the_same_in_version_2, a_document_nests_five_deep, a_migration_says_the_same,
};
pub use migration::migrated;
