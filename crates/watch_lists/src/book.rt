// All conditions of a book are put into the lists of what they name, in the order in which a moment steps them.
ghost use Rattle.std.specs.Prelude.{◌≡◌, ◌+◌, ◌*◌, ◌<◌, ◌≤◌, ◌^◌, suc, List, length, slice_get, Some, OnOk, IfOk};
ghost use Rattle.ecam_spec.specs.declared.limits.TheConstants.{ALERTS, LINES};
ghost use Rattle.ecam_spec.specs.TermSize.{Placed};
ghost use Rattle.ecam_spec.specs.TermNames.{IsWithin};
ghost use Rattle.book_model.specs.View.{tree_in, placed_of};
ghost use Rattle.book_model.specs.Sealed.{the_book};
ghost use Rattle.book_model.specs.Conditions.{places, alerts_from, lines_from, memos_from};
ghost use Rattle.watch_lists.specs.Naming.{operand_count, sizes_of, line_number};
ghost use Rattle.watch_lists.specs.Listed.{items_of, NextListed, ListsNone, ListsAll};

use crate::lists::add_operands;
use crate::number::Sizes;
use book_model::{Book, Line, Term};
use std::alloc::{AllocError, Global};

/// Per operand the numbers of the conditions that name it. An error is want of memory.
pub fn lists_of(alloc: Global, book: &Book) -> Result<Vec<Vec<usize>>, AllocError>
    ensures count { IfOk result (λ v. length v.items ≡ operand_count (sizes_of book.now)) }
    ensures lists { IfOk result (λ v. ListsAll (sizes_of book.now) (places (the_book book.now))
        (items_of v.items)) }
{
    let sizes = Sizes {
        params: book.params().len(),
        alerts: book.alerts().len(),
    };
    let mut lists = no_lists(alloc, sizes.params + sizes.alerts + 28)?;
    add_phase(&mut lists, book, sizes)?;
    add_alerts(&mut lists, book, sizes)?;
    add_procedures(&mut lists, book, sizes)?;
    add_memos(&mut lists, book, sizes)?;
    Ok(lists)
}

fn no_lists(alloc: Global, count: usize) -> Result<Vec<Vec<usize>>, AllocError>
    ensures count { IfOk result (λ v. length v.items ≡ count) }
    ensures none { IfOk result (λ v. ListsNone (items_of v.items)) }
{
    let mut lists = Vec::new(alloc);
    for _place in 0..count {
        lists.push(Vec::new(alloc))?;
    }
    Ok(lists)
}

// One condition, which has this number.
fn add_term(
    lists: &mut Vec<Vec<usize>>,
    term: &Term,
    number: usize,
    sizes: Sizes,
) -> Result<(), AllocError>
    requires few { sizes.params + sizes.alerts < 2 ^ 32 }
    requires lists { length lists.old.items ≡ operand_count sizes }
    requires within { IsWithin sizes.params sizes.alerts (tree_in term.now) }
    ensures len { OnOk result (length lists.new.items ≡ length lists.old.items) }
    ensures listed { OnOk result ((ps : List Placed)
        → slice_get ps number ≡ Some (placed_of term.now)
        → NextListed sizes ps number (suc number) (items_of lists.old.items)
        (items_of lists.new.items)) }
{
    add_operands(lists, &term.cond, number, sizes)
}

// The inputs of the phase.
fn add_phase(lists: &mut Vec<Vec<usize>>, book: &Book, sizes: Sizes) -> Result<(), AllocError>
    requires sizes { sizes ≡ sizes_of book.now }
    requires lists { length lists.old.items ≡ operand_count sizes }
    ensures len { OnOk result (length lists.new.items ≡ length lists.old.items) }
    ensures listed { OnOk result (NextListed sizes (places (the_book book.now)) 0 alerts_from
        (items_of lists.old.items) (items_of lists.new.items)) }
{
    let terms = book.phase_terms();
    add_term(lists, &terms.gnd, 0, sizes)?;
    add_term(lists, &terms.run, 1, sizes)?;
    add_term(lists, &terms.tp, 2, sizes)?;
    add_term(lists, &terms.fast, 3, sizes)?;
    add_term(lists, &terms.high, 4, sizes)?;
    add_term(lists, &terms.low, 5, sizes)
}

// The alerts' own.
fn add_alerts(lists: &mut Vec<Vec<usize>>, book: &Book, sizes: Sizes) -> Result<(), AllocError>
    requires sizes { sizes ≡ sizes_of book.now }
    requires lists { length lists.old.items ≡ operand_count sizes }
    ensures len { OnOk result (length lists.new.items ≡ length lists.old.items) }
    ensures listed { OnOk result (NextListed sizes (places (the_book book.now)) alerts_from
        (lines_from (the_book book.now))
        (items_of lists.old.items) (items_of lists.new.items)) }
{
    for alert in 0..book.alerts().len() {
        add_term(lists, &book.alerts()[alert].when, 6 + alert, sizes)?;
    }
    Ok(())
}

// Two for each line.
fn add_procedures(lists: &mut Vec<Vec<usize>>, book: &Book, sizes: Sizes) -> Result<(), AllocError>
    requires sizes { sizes ≡ sizes_of book.now }
    requires lists { length lists.old.items ≡ operand_count sizes }
    ensures len { OnOk result (length lists.new.items ≡ length lists.old.items) }
    ensures listed { OnOk result (NextListed sizes (places (the_book book.now))
        (lines_from (the_book book.now)) (memos_from (the_book book.now))
        (items_of lists.old.items) (items_of lists.new.items)) }
{
    for alert in 0..book.alerts().len() {
        add_lines(lists, book, alert, sizes)?;
    }
    Ok(())
}

// Those of the lines of one alert.
fn add_lines(
    lists: &mut Vec<Vec<usize>>,
    book: &Book,
    alert: usize,
    sizes: Sizes,
) -> Result<(), AllocError>
    requires sizes { sizes ≡ sizes_of book.now }
    requires lists { length lists.old.items ≡ operand_count sizes }
    requires alert { alert < length book.now.alerts.items }
    ensures len { OnOk result (length lists.new.items ≡ length lists.old.items) }
    ensures listed { OnOk result (NextListed sizes (places (the_book book.now))
        (line_number book.now alert 0) (line_number book.now (alert + 1) 0)
        (items_of lists.old.items) (items_of lists.new.items)) }
{
    let own = &book.alerts()[alert].lines;
    let first = book.line_at(alert);
    for i in 0..own.len() {
        add_line(lists, &own[i], line_number(sizes.alerts, first + i), sizes)?;
    }
    Ok(())
}

// The number of the first condition of a line, by the line's place among all.
fn line_number(alerts: usize, line: usize) -> usize
    requires alerts { alerts ≤ ALERTS }
    requires line { line < ALERTS * LINES }
    ensures { result ≡ 6 + alerts + 2 * line }
{
    6 + alerts + 2 * line
}

// Both conditions of a line, of which the first has this number.
fn add_line(
    lists: &mut Vec<Vec<usize>>,
    line: &Line,
    number: usize,
    sizes: Sizes,
) -> Result<(), AllocError>
    requires few { sizes.params + sizes.alerts < 2 ^ 32 }
    requires lists { length lists.old.items ≡ operand_count sizes }
    requires number { number < 2 ^ 32 }
    requires when { IsWithin sizes.params sizes.alerts (tree_in line.now.when) }
    requires done { IsWithin sizes.params sizes.alerts (tree_in line.now.done) }
    ensures len { OnOk result (length lists.new.items ≡ length lists.old.items) }
    ensures listed { OnOk result ((ps : List Placed)
        → slice_get ps number ≡ Some (placed_of line.now.when)
        → slice_get ps (suc number) ≡ Some (placed_of line.now.done)
        → NextListed sizes ps number (suc (suc number)) (items_of lists.old.items)
        (items_of lists.new.items)) }
{
    add_term(lists, &line.when, number, sizes)?;
    add_term(lists, &line.done, number + 1, sizes)
}

// The memos'.
fn add_memos(lists: &mut Vec<Vec<usize>>, book: &Book, sizes: Sizes) -> Result<(), AllocError>
    requires sizes { sizes ≡ sizes_of book.now }
    requires lists { length lists.old.items ≡ operand_count sizes }
    ensures len { OnOk result (length lists.new.items ≡ length lists.old.items) }
    ensures listed { OnOk result (NextListed sizes (places (the_book book.now))
        (memos_from (the_book book.now)) (length (places (the_book book.now)))
        (items_of lists.old.items) (items_of lists.new.items)) }
{
    let first = first_memo(book, sizes);
    for i in 0..book.memos().len() {
        add_term(lists, &book.memos()[i].when, first + i, sizes)?;
    }
    Ok(())
}

// The number of the first memo's condition.
fn first_memo(book: &Book, sizes: Sizes) -> usize
    requires { sizes ≡ sizes_of book.now }
    ensures value { result ≡ memos_from (the_book book.now) }
    ensures few { result < 2 ^ 32 }
{
    6 + sizes.alerts + 2 * book.line_count()
}
