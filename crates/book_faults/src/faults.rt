// The first fault of a document's table.
ghost use Rattle.std.specs.Prelude.{◌≡◌, ◌<◌, ◌^◌, length, codes, true, None, is_none, IfOk};
ghost use Rattle.toml.specs.View.{table_view};
ghost use Rattle.ecam_spec.specs.Faults.{fault_at, whole};
ghost use Rattle.book_spec.specs.Fields.{has_only};
ghost use Rattle.book_spec.specs.Document.{top_keys};
ghost use Rattle.book_spec.specs.Rules.{list_in};
ghost use Rattle.book_spec.specs.Document as spec;
ghost use Rattle.book_tables.specs.Catalogue.{table_in, IsComplete};
ghost use Rattle.book_tables.specs.Meant.{AreMeant};
ghost use Rattle.book_faults.specs.declared.rules.Asked.TheVariants.{Every, Unread};
ghost use Rattle.book_faults.specs.Readable.{AreReadable};
ghost use Rattle.book_faults.specs.FaultParts.{system_fault, listed_fault, alerts_fault, phase_fault, asked_fault, taken_fault, rule_faults, ordered_fault, top_fault};

use crate::rules::Asked;
use crate::searches::{first_repeated, first_taken, place_among_items, place_among_leaves};
use crate::sections::{ALERTS, FIRST_ALERTS, ItemList, MEMOS, PAGES, PARAMS, TERMS};
use crate::tables::item_breaks;
use book_model::{BookFault, Section};
use book_spec::{Item, Leaf, Rule};
use book_tables::Catalogue;
use book_tables::fields::{find, has_only, list_in, names_in, number_at, texts_in};
use ecam_spec::limits;
use std::alloc::{AllocError, Global};
use toml::Table;

/// The most systems of a book, and the most bytes of each.
const MOST_SYSTEMS: usize = limits::SYSTEMS;

const SYSTEM_BYTES: usize = limits::SYSTEM_TEXT;

/// The keys of a document of version 1, and of version 2.
const FIRST_KEYS: [&str; 7] = [
    "version", "systems", "page", "param", "phase", "alert", "memo",
];

const SECOND_KEYS: [&str; 8] = [
    "term", "version", "systems", "page", "param", "phase", "alert", "memo",
];

/// The rules that are searched before names that stand twice, with their codes, and those after.
const BEFORE_NAMES: [(u8, Rule); 7] = [
    (4, Rule::Known),
    (5, Rule::Needed),
    (6, Rule::Typed),
    (7, Rule::Named),
    (8, Rule::Written),
    (9, Rule::Ranged),
    (10, Rule::Counted),
];

const AFTER_NAMES: [(u8, Rule); 8] = [
    (12, Rule::Worded),
    (13, Rule::Labelled),
    (14, Rule::Paged),
    (15, Rule::Grouped),
    (16, Rule::Spelled),
    (17, Rule::Found),
    (18, Rule::Small),
    (19, Rule::Measured),
];

fn fault_at(code: u8, section: Section, item: Option<u32>) -> Option<BookFault>
    ensures { result ≡ fault_at code section item }
{
    match item {
        Some(item) => Some(BookFault {
            code,
            section,
            item,
        }),
        None => None,
    }
}

fn whole(holds: bool) -> Option<u32>
    ensures { result ≡ whole holds }
{
    if holds { Some(0) } else { None }
}

#[tactic(auto, using(book_tables::proofs::FewItems::few_members))]
fn system_fault(
    alloc: Global,
    names: &Catalogue<'_>,
    code: u8,
    asked: Asked,
) -> Result<Option<BookFault>, AllocError>
    requires { IsComplete names.now }
    ensures { IfOk result (λ r. r ≡ system_fault (table_in names.now) code asked) }
{
    let Some(value) = find(names.places.top, "systems") else {
        return Ok(None);
    };
    let text = Leaf::Text(SYSTEM_BYTES);
    let item = place_among_leaves(alloc, asked, &names.all(), text, MOST_SYSTEMS, value)?;
    Ok(fault_at(code, Section::System, item))
}

#[tactic(auto, using(book_tables::proofs::FewItems::few_members))]
fn listed_fault(
    alloc: Global,
    names: &Catalogue<'_>,
    code: u8,
    asked: Asked,
    listed: &ItemList,
) -> Result<Option<BookFault>, AllocError>
    requires complete { IsComplete names.now }
    requires few { length (list_in listed.now.key.now (table_in names.now)) < 2 ^ 32 }
    ensures { IfOk result (λ r. r ≡ listed_fault (table_in names.now) code asked listed.now) }
{
    let Some(value) = find(names.places.top, listed.key) else {
        return Ok(None);
    };
    let item = place_among_items(alloc, asked, names, listed.item, listed.most, value)?;
    Ok(fault_at(code, listed.section, item))
}

fn alerts_fault(
    alloc: Global,
    names: &Catalogue<'_>,
    code: u8,
    asked: Asked,
) -> Result<Option<BookFault>, AllocError>
    requires { IsComplete names.now }
    ensures { IfOk result (λ r. r ≡ alerts_fault (table_in names.now) code asked) }
{
    if is_second(names.places.top) {
        listed_fault(alloc, names, code, asked, &ALERTS)
    } else {
        listed_fault(alloc, names, code, asked, &FIRST_ALERTS)
    }
}

fn phase_fault(
    alloc: Global,
    names: &Catalogue<'_>,
    code: u8,
    asked: Asked,
) -> Result<Option<BookFault>, AllocError>
    requires { IsComplete names.now }
    ensures { IfOk result (λ r. r ≡ phase_fault (table_in names.now) code asked) }
{
    let Some(value) = find(names.places.top, "phase") else {
        return Ok(None);
    };
    let breaks = item_breaks(alloc, asked, &names.all(), Item::Phase, value)?;
    Ok(fault_at(code, Section::Phase, whole(breaks)))
}

/// The first section that breaks a rule that is asked for, and its first item. Of named conditions, the flight phase,
/// alerts and memos, whose conditions are drafted, other rules may be asked for than of the sections before them.
#[tactic(auto, unfolding(crate::specs::FaultParts::asked_fault))]
fn rule_fault(
    alloc: Global,
    names: &Catalogue<'_>,
    code: u8,
    asked: Asked,
    drafted: Asked,
) -> Result<Option<BookFault>, AllocError>
    requires { IsComplete names.now }
    ensures { IfOk result (λ r. r ≡ asked_fault (table_in names.now) code asked drafted) }
{
    let fault = system_fault(alloc, names, code, asked)?;
    if fault.is_some() {
        return Ok(fault);
    }
    let fault = listed_fault(alloc, names, code, asked, &PAGES)?;
    if fault.is_some() {
        return Ok(fault);
    }
    let fault = listed_fault(alloc, names, code, asked, &PARAMS)?;
    if fault.is_some() {
        return Ok(fault);
    }
    let fault = listed_fault(alloc, names, code, drafted, &TERMS)?;
    if fault.is_some() {
        return Ok(fault);
    }
    let fault = phase_fault(alloc, names, code, drafted)?;
    if fault.is_some() {
        return Ok(fault);
    }
    let fault = alerts_fault(alloc, names, code, drafted)?;
    if fault.is_some() {
        return Ok(fault);
    }
    listed_fault(alloc, names, code, drafted, &MEMOS)
}

fn first_rule_fault(
    alloc: Global,
    names: &Catalogue<'_>,
    rules: &[(u8, Rule)],
) -> Result<Option<BookFault>, AllocError>
    requires { IsComplete names.now }
    ensures { IfOk result (λ r. r ≡ rule_faults (table_in names.now) rules.now) }
{
    for (code, rule) in rules {
        let fault = rule_fault(alloc, names, *code, Asked::One(*rule), Asked::One(*rule))?;
        if fault.is_some() {
            return Ok(fault);
        }
    }
    Ok(None)
}

#[tactic(auto, using(book_tables::proofs::FewItems::system_count))]
fn repeated_systems(alloc: Global, names: &Catalogue<'_>) -> Result<Option<BookFault>, AllocError>
    requires { length (list_in (codes "systems") (table_in names.now)) < 2 ^ 32 }
    ensures { IfOk result (λ r. r ≡ spec.repeated_in (table_in names.now) Section.System
        (spec.system_texts (table_in names.now))) }
{
    let texts = texts_in(alloc, list_in(names.places.top, "systems"))?;
    let item = first_repeated(alloc, texts.as_slice())?;
    Ok(fault_at(11, Section::System, item))
}

#[tactic(auto, using(book_tables::proofs::FewItems::name_count))]
fn repeated_names(
    alloc: Global,
    names: &Catalogue<'_>,
    section: Section,
    key: &str,
) -> Result<Option<BookFault>, AllocError>
    requires { length (list_in key.now (table_in names.now)) < 2 ^ 32 }
    ensures { IfOk result (λ r. r ≡ spec.repeated_in (table_in names.now) section
        (spec.names_in key.now (table_in names.now))) }
{
    let texts = names_in(alloc, list_in(names.places.top, key))?;
    let item = first_repeated(alloc, texts.as_slice())?;
    Ok(fault_at(11, section, item))
}

/// The first named condition whose name stands at another one too, or is a parameter's.
#[tactic(auto, using(book_tables::proofs::FewItems::name_count), unfolding(book_spec::specs::Document::names_of))]
fn taken_names(alloc: Global, names: &Catalogue<'_>) -> Result<Option<BookFault>, AllocError>
    requires { IsComplete names.now }
    ensures { IfOk result (λ r. r ≡ taken_fault (table_in names.now)) }
{
    let texts = names_in(alloc, list_in(names.places.top, "term"))?;
    let item = first_taken(alloc, &names.all(), texts.as_slice())?;
    Ok(fault_at(11, Section::Term, item))
}

/// The first item whose name stands at another one of its section too, or a named condition's that is a parameter's.
#[tactic(auto, unfolding(book_spec::specs::Document::repeated_fault))]
fn repeated_fault(alloc: Global, names: &Catalogue<'_>) -> Result<Option<BookFault>, AllocError>
    requires { IsComplete names.now }
    ensures { IfOk result (λ r. r ≡ spec.repeated_fault (table_in names.now)) }
{
    let fault = repeated_systems(alloc, names)?;
    if fault.is_some() {
        return Ok(fault);
    }
    let fault = repeated_names(alloc, names, Section::Page, "page")?;
    if fault.is_some() {
        return Ok(fault);
    }
    let fault = repeated_names(alloc, names, Section::Param, "param")?;
    if fault.is_some() {
        return Ok(fault);
    }
    let fault = taken_names(alloc, names)?;
    if fault.is_some() {
        return Ok(fault);
    }
    let fault = repeated_names(alloc, names, Section::Alert, "alert")?;
    if fault.is_some() {
        return Ok(fault);
    }
    repeated_names(alloc, names, Section::Memo, "memo")
}

// The version of a document, 1 or 2.
#[tactic(auto, unfolding(book_spec::specs::Document::version))]
fn version(top: &Table) -> Option<u32>
    ensures { result ≡ spec.version (table_view top.now) }
{
    number_at(top, 1, 2, "version")
}

fn is_second(top: &Table) -> bool
    ensures { result ≡ spec.is_second (table_view top.now) }
{
    version(top).unwrap_or(1) == 2
}

#[tactic(auto, unfolding(book_spec::specs::Document::top_keys))]
fn has_top_keys(top: &Table) -> bool
    ensures { result ≡ has_only (top_keys (spec.is_second (table_view top.now)))
        (table_view top.now) }
{
    if is_second(top) {
        has_only(top, &SECOND_KEYS)
    } else {
        has_only(top, &FIRST_KEYS)
    }
}

/// The fault of the top alone.
fn top_fault(top: &Table) -> Option<BookFault>
    ensures { result ≡ top_fault (table_view top.now) }
{
    if version(top).is_none() {
        return fault_at(3, Section::Top, Some(0));
    }
    if !has_top_keys(top) {
        return fault_at(4, Section::Top, Some(0));
    }
    None
}

/// Whether a document breaks no rule but by the text of a condition of the flight phase, of an alert or of a memo. It is
/// one pass through it, which ends where a rule is broken; which one it is doesn't count here, so that no code is told.
/// Named conditions were read with the names.
fn keeps_rules(alloc: Global, names: &Catalogue<'_>) -> Result<bool, AllocError>
    requires { IsComplete names.now }
    ensures meant { IfOk result (λ b. b ≡ true → AreMeant (table_in names.now)) }
    ensures kept { IfOk result (λ b. b ≡ true
        → is_none (asked_fault (table_in names.now) 0 Every Unread) ≡ true) }
{
    if !names.are_meant() {
        return Ok(false);
    }
    let fault = rule_fault(alloc, names, 0, Asked::Every, Asked::Unread)?;
    Ok(fault.is_none())
}

/// Whether no name stands twice where it may stand once.
fn has_distinct_names(alloc: Global, names: &Catalogue<'_>) -> Result<bool, AllocError>
    requires { IsComplete names.now }
    ensures { IfOk result (λ b. b ≡ is_none (spec.repeated_fault (table_in names.now))) }
{
    let fault = repeated_fault(alloc, names)?;
    Ok(fault.is_none())
}

/// The first fault below the top. Each code is one search through the document, in their order.
fn ordered_fault(alloc: Global, names: &Catalogue<'_>) -> Result<Option<BookFault>, AllocError>
    requires { IsComplete names.now }
    ensures { IfOk result (λ r. r ≡ ordered_fault (table_in names.now)) }
{
    let fault = first_rule_fault(alloc, names, &BEFORE_NAMES)?;
    if fault.is_some() {
        return Ok(fault);
    }
    let fault = repeated_fault(alloc, names)?;
    if fault.is_some() {
        return Ok(fault);
    }
    first_rule_fault(alloc, names, &AFTER_NAMES)
}

/// Whether a document has no fault but such as the texts of the conditions of the flight phase, alerts and memos have:
/// then it has none if each of them means a condition. It is one pass through the document, in which no condition is read,
/// and two hashes of each name. An error is want of memory.
pub fn is_faultless_if_readable(alloc: Global, names: &Catalogue<'_>) -> Result<bool, AllocError>
    requires { IsComplete names.now }
    ensures { IfOk result (λ b. b ≡ true → AreReadable (table_in names.now)
        → spec.table_fault (table_in names.now) ≡ None) }
{
    if top_fault(names.places.top).is_some() {
        return Ok(false);
    }
    if keeps_rules(alloc, names)? {
        return has_distinct_names(alloc, names);
    }
    Ok(false)
}

/// The first fault that a document's table shows: the one with the least code, among these the one in the first
/// section, and among these the one of the least item. Each code up to that of the fault is a search. An error is want
/// of memory.
pub fn table_fault(alloc: Global, names: &Catalogue<'_>) -> Result<Option<BookFault>, AllocError>
    requires { IsComplete names.now }
    ensures { IfOk result (λ r. r ≡ spec.table_fault (table_in names.now)) }
{
    let fault = top_fault(names.places.top);
    if fault.is_some() {
        return Ok(fault);
    }
    ordered_fault(alloc, names)
}
