// Which conditions can be read from a text, and written.
ghost use Rattle.ecam_spec.specs.Book.{Tree};
ghost use Rattle.ecam_spec.specs.TermText.{TermNames};
ghost use Rattle.term_text.specs.Readable.{CanBeRead, TermsCanBeRead, IsWritable};

/// Some text means a condition exactly where its names are known, each by the first place at which it stands,
/// its numbers are in their ranges, and it has at most 64 nodes and a depth of at most 16. Named conditions that
/// can be read without them add none.
pub fn readable_conditions()
    ensures only { (names : TermNames) (tree : Tree) → TermsCanBeRead names → CanBeRead names tree
        → IsWritable names tree }
    ensures all { (names : TermNames) (tree : Tree) → IsWritable names tree → CanBeRead names tree }
{}
