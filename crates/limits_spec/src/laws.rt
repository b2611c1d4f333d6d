//! What the definitions say, as theorems: each is the contract of a function that does nothing.
ghost use Rattle.std.specs.Prelude.{◌≡◌, Some, List};
ghost use Rattle.ecam_spec.specs.Book.{Text, Book};
ghost use Rattle.view_spec.specs.Advisories.{Advisory, Fit};
ghost use Rattle.limits_spec.specs.LimitsBytes.{limits};

/// The limits of a file without a fault fit the book: their parameters and pages are the book's.
pub fn limits_without_fault_fit()
    ensures { (b : Book) (bytes : Text) (l : List Advisory) → limits b bytes ≡ Some l → Fit b l }
{}
