// Words on the buses of a small book. The expected values were worked out by hand.
ghost use Rattle.std.specs.Prelude.{◌≡◌, ◌≤◌, [], ◌∷◌, length, map, codes, IfOk, Some, None};
ghost use Rattle.ecam_spec.specs.Book.{constant, discrete, valid};
ghost use Rattle.ecam_spec.specs.KeepsLimits.{IsSound};
ghost use Rattle.ecam_spec.specs.DraftFaults.{draft_fault};
ghost use Rattle.book_model.specs.Sealed.{the_book};
ghost use Rattle.param_table.specs.TableState.{ParamsFit};
ghost use Rattle.book_model.specs.View.{draft_of, tree_in, source_of, parameter_of};

use crate::Params;
use book_model::{Book, Draft, Kind, Name, Param, PhaseTerms, Term, WordSource};
use std::alloc::{AllocError, Global};
use std::process::Abort;
use std::test::Fail;
use term_tree::Cond;

fn name(text: &str) -> Name
    requires { length text.now ≤ 24 }
    ensures { result.bytes ≡ text.now }
{
    let mut name = Name::new();
    name.push_str(text);
    name
}

fn term(holds: bool) -> Term
    ensures { tree_in result ≡ constant holds }
{
    Term {
        cond: Cond::Const(holds),
        at: 0,
    }
}

fn valid(param: u32) -> Term
    ensures { tree_in result ≡ valid param }
{
    Term {
        cond: Cond::Valid(param),
        at: 0,
    }
}

fn discrete(param: u32) -> Term
    ensures { tree_in result ≡ discrete param }
{
    Term {
        cond: Cond::Disc(param),
        at: 0,
    }
}

fn source(bus: u8, label: u8, sdi: Option<u8>) -> WordSource
    ensures { source_of result
        ≡ record { bus = bus; label = label; sdi = sdi; bit = 11; low = 11; range = 1 } }
{
    WordSource {
        bus,
        label,
        sdi,
        bit: 11,
        low: 11,
        range: 1,
    }
}

// A number of two sources, and two discretes.
fn params(alloc: Global) -> Result<Vec<Param>, AllocError>
    ensures { IfOk result (λ v. map parameter_of v.items ≡
        record {
          name = codes "number";
          kind = Kind.Bcd;
          stale = 1;
          sources =
              record { bus = 0; label = 0o170; sdi = Some 1; bit = 11; low = 11; range = 1 }
              ∷ record { bus = 2; label = 0o170; sdi = None; bit = 11; low = 11; range = 1 } ∷ [];
        }
        ∷ record {
          name = codes "bit";
          kind = Kind.Disc;
          stale = 2;
          sources =
              record { bus = 0; label = 0o270; sdi = None; bit = 11; low = 11; range = 1 } ∷ [];
        }
        ∷ record {
          name = codes "spare";
          kind = Kind.Disc;
          stale = 2;
          sources =
              record { bus = 1; label = 0o270; sdi = None; bit = 11; low = 11; range = 1 } ∷ [];
        } ∷ []) }
{
    Ok(vec![in alloc;
        Param {
            name: name("number"),
            kind: Kind::Bcd,
            stale: 1,
            sources: vec![in alloc; source(0, 0o170, Some(1)), source(2, 0o170, None)]?,
        },
        Param {
            name: name("bit"),
            kind: Kind::Disc,
            stale: 2,
            sources: vec![in alloc; source(0, 0o270, None)]?,
        },
        Param {
            name: name("spare"),
            kind: Kind::Disc,
            stale: 2,
            sources: vec![in alloc; source(1, 0o270, None)]?,
        },
    ]?)
}

// Conditions ask for the number and the first discrete. Nothing asks for the second.
fn draft(alloc: Global) -> Result<Draft, AllocError>
    ensures sound { IfOk result (λ d. IsSound (draft_of d)) }
    ensures faultless { IfOk result (λ d. draft_fault (draft_of d) ≡ None) }
{
    Ok(Draft {
        systems: Vec::new(alloc),
        pages: Vec::new(alloc),
        params: params(alloc)?,
        terms: Vec::new(alloc),
        phase: PhaseTerms {
            gnd: valid(0),
            run: discrete(1),
            tp: term(false),
            fast: term(false),
            high: term(false),
            low: term(false),
        },
        alerts: Vec::new(alloc),
        memos: Vec::new(alloc),
    })
}

// The book of these.
fn small_book(alloc: Global) -> Result<Book, AllocError> {
    Book::build(alloc, draft(alloc)?)
}

// The words of the number and the first discrete, and what they give.
fn take_words(rt: &impl Abort, table: &mut Params, book: &Book)
    requires fits { ParamsFit (the_book book.now) table.old }
    requires three { length book.now.params.items ≡ 3 }
{
    assert_eq!(rt; table.value(book, 0), None);
    table.take(book, 2, 0xe48d151e);
    table.take(book, 0, 0x0000041d);
    assert_eq!(rt; table.value(book, 0), Some(-12345));
    assert_eq!(rt; table.value(book, 1), Some(1));
    assert_eq!(rt; table.value_before(book, 0), None);
    assert_eq!(rt; table.changed_word(book, 0), 3);
    table.tick(book);
    assert_eq!(rt; table.value_before(book, 0), Some(-12345));
    assert_eq!(rt; table.changed_word(book, 0), 0);
    // A number with another SDI, one with the source's own, and a discrete of even parity.
    table.take(book, 0, 0x848d161e);
    assert_eq!(rt; table.value(book, 0), Some(-12345));
    table.take(book, 0, 0x848d151e);
    table.take(book, 0, 0x8000041d);
    assert_eq!(rt;
        (table.value(book, 0), table.value_before(book, 0)),
        (Some(12345), Some(-12345))
    );
    table.tick(book);
    table.tick(book);
    assert_eq!(rt;
        (table.value(book, 0), table.value_before(book, 0)),
        (None, Some(12345))
    );
    assert_eq!(rt;
        (table.value(book, 1), table.value_before(book, 1)),
        (None, Some(1))
    );
}

#[test]
fn words_give_values(rt: HostRuntime) -> Result<(), Fail> {
    let alloc = rt.alloc();
    let book = small_book(alloc)?;
    assert_eq!(rt; book.params().len(), 3);
    let mut table = Params::new(alloc, &book)?;
    take_words(&rt, &mut table, &book);
    Ok(())
}

// Words of the discrete for which nothing asks, and what it gives and gave in each moment.
fn take_unasked(rt: &impl Abort, table: &mut Params, book: &Book)
    requires fits { ParamsFit (the_book book.now) table.old }
    requires three { length book.now.params.items ≡ 3 }
{
    table.take(book, 1, 0x0000041d);
    assert_eq!(rt;
        (table.value(book, 2), table.value_before(book, 2)),
        (Some(1), None)
    );
    assert_eq!(rt; table.changed_word(book, 0), 0);
    table.tick(book);
    assert_eq!(rt; table.value_before(book, 2), Some(1));
    // Three words in one moment.
    table.take(book, 1, 0x8000001d);
    table.take(book, 1, 0x0000041d);
    table.take(book, 1, 0x8000001d);
    assert_eq!(rt;
        (table.value(book, 2), table.value_before(book, 2)),
        (Some(0), Some(1))
    );
    assert_eq!(rt; table.changed_word(book, 0), 0);
    table.tick(book);
    table.tick(book);
    assert_eq!(rt;
        (table.value(book, 2), table.value_before(book, 2)),
        (Some(0), Some(0))
    );
    table.tick(book);
    assert_eq!(rt;
        (table.value(book, 2), table.value_before(book, 2)),
        (None, Some(0))
    );
    assert_eq!(rt; table.changed_word(book, 0), 0);
    table.tick(book);
    assert_eq!(rt; table.value_before(book, 2), None);
}

#[test]
fn nothing_is_told_of_a_parameter_that_is_not_asked_for(rt: HostRuntime) -> Result<(), Fail> {
    let alloc = rt.alloc();
    let book = small_book(alloc)?;
    assert_eq!(rt; book.params().len(), 3);
    let mut table = Params::new(alloc, &book)?;
    take_unasked(&rt, &mut table, &book);
    Ok(())
}

// The discrete's word comes again in the last moment in which it is fresh.
fn take_again(rt: &impl Abort, table: &mut Params, book: &Book)
    requires fits { ParamsFit (the_book book.now) table.old }
    requires three { length book.now.params.items ≡ 3 }
{
    table.take(book, 0, 0x0000041d);
    table.tick(book);
    table.tick(book);
    table.take(book, 0, 0x0000041d);
    assert_eq!(rt; table.changed_word(book, 0), 0);
    table.tick(book);
    table.tick(book);
    assert_eq!(rt; table.value(book, 1), Some(1));
    assert_eq!(rt; table.changed_word(book, 0), 0);
    table.tick(book);
    assert_eq!(rt; table.value(book, 1), None);
    assert_eq!(rt; table.changed_word(book, 0), 2);
}

#[test]
fn a_repeated_word_is_fresh_for_longer(rt: HostRuntime) -> Result<(), Fail> {
    let alloc = rt.alloc();
    let book = small_book(alloc)?;
    assert_eq!(rt; book.params().len(), 3);
    let mut table = Params::new(alloc, &book)?;
    take_again(&rt, &mut table, &book);
    Ok(())
}

// A table with two words of the discrete, and another that takes them over.
fn take_over(rt: &impl Abort, table: &mut Params, other: &mut Params, book: &Book)
    requires fits { ParamsFit (the_book book.now) table.old }
    requires other { ParamsFit (the_book book.now) other.old }
    requires three { length book.now.params.items ≡ 3 }
{
    table.take(book, 0, 0x0000041d);
    table.tick(book);
    table.take(book, 0, 0x8000001d);
    other.copy_from(table);
    assert_eq!(rt;
        (other.value(book, 1), other.value_before(book, 1)),
        (Some(0), Some(1))
    );
}

#[test]
fn a_copy_has_the_same_values(rt: HostRuntime) -> Result<(), Fail> {
    let alloc = rt.alloc();
    let book = small_book(alloc)?;
    assert_eq!(rt; book.params().len(), 3);
    let mut table = Params::new(alloc, &book)?;
    let mut other = Params::beside(alloc, &book, &table)?;
    take_over(&rt, &mut table, &mut other, &book);
    Ok(())
}

// A table with the discrete's word, one beside it, and what both give.
fn stand_beside(
    rt: &impl Abort,
    alloc: Global,
    table: &mut Params,
    book: &Book,
) -> Result<(), AllocError>
    requires fits { ParamsFit (the_book book.now) table.old }
    requires three { length book.now.params.items ≡ 3 }
{
    table.take(book, 0, 0x0000041d);
    let other = Params::beside(alloc, book, table)?;
    let values = (table.value(book, 1), other.value(book, 1));
    assert_eq!(rt; values, (Some(1), None));
    Ok(())
}

#[test]
fn a_table_beside_another_holds_no_word(rt: HostRuntime) -> Result<(), Fail> {
    let alloc = rt.alloc();
    let book = small_book(alloc)?;
    assert_eq!(rt; book.params().len(), 3);
    let mut table = Params::new(alloc, &book)?;
    stand_beside(&rt, alloc, &mut table, &book)?;
    Ok(())
}

// A table with the discrete's word, which is cleared.
fn take_and_clear(rt: &impl Abort, table: &mut Params, book: &Book)
    requires fits { ParamsFit (the_book book.now) table.old }
    requires three { length book.now.params.items ≡ 3 }
{
    table.take(book, 0, 0x0000041d);
    assert_eq!(rt; table.value(book, 1), Some(1));
    table.clear();
    assert_eq!(rt; table.value(book, 1), None);
}

#[test]
fn nothing_is_left_of_what_is_cleared(rt: HostRuntime) -> Result<(), Fail> {
    let alloc = rt.alloc();
    let book = small_book(alloc)?;
    assert_eq!(rt; book.params().len(), 3);
    let mut table = Params::new(alloc, &book)?;
    take_and_clear(&rt, &mut table, &book);
    Ok(())
}
