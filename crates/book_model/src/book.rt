// A book that has no fault, ready to be replayed.
ghost use Rattle.ecam_spec.specs.Screen.{order};
ghost use Rattle.ecam_spec.specs.BookTerms.{terms_of, slots_in, lines_of};

use crate::draft::{Alert, Draft, Memo, Page, Param, PhaseTerms, Text};
use crate::index::Index;
use crate::parts::{line_starts_of, order_of, secondaries_of};
use crate::slots::place;
use std::alloc::{AllocError, Global};
use std::marker::Model;

/// A book: a draft without a fault, in which each condition has its place among the slots, with the order of
/// its alerts, their secondaries by place, the place of each alert's first line among all lines, and the sources
/// that listen to each bus and label.
#[derive(Drop)]
pub struct Book {
    draft: Draft,
    order: Vec<u32>,
    secondaries: Vec<Vec<u32>>,
    line_starts: Vec<usize>,
    line_count: usize,
    slots: usize,
    index: Index,
}

impl Model for Book {
    ghost use Rattle.book_model.specs.declared.draft.Draft.{Draft};

    ghost Value = { Draft };

    ghost use Rattle.term_tree.specs.contracts.cond.Cond as condition;
    ghost use Rattle.std.specs.Coded.{codes};

    ghost coded = { Prim.hlevel (codes, condition.the_row.coded) };

    ghost use Rattle.book_model.specs.Inside.{IsBook};

    ghost view = { λ b. b.draft };

    ghost invariant = { IsBook };
}

impl Book {
    ghost use Rattle.std.specs.Prelude.{◌≡◌, ◌<◌, ◌*◌, length, map, take, slice_get, Some, None, All, IfOk};
    ghost use Rattle.ecam_spec.specs.Book.{Source};
    ghost use Rattle.ecam_spec.specs.Word.{label};
    ghost use Rattle.ecam_spec.specs.KeepsLimits.{IsSound};
    ghost use Rattle.ecam_spec.specs.DraftFaults.{draft_fault};
    ghost use Rattle.book_model.specs.View.{draft_of};
    ghost use Rattle.book_model.specs.Sealed.{IsSealed, the_book};
    ghost use Rattle.book_model.specs.SourcePlaces.{source_at, listens, last_below};

    /// Seals a draft that has no fault: gives each condition its place among the slots, and changes nothing
    /// else. Fails only where memory runs out.
    pub fn build(alloc: Global, draft: Draft) -> Result<Book, AllocError>
        requires sound { IsSound (draft_of draft) }
        requires faultless { draft_fault (draft_of draft) ≡ None }
        ensures same { IfOk result (λ b. draft_of b ≡ draft_of draft) }
        ensures sealed { IfOk result IsSealed }
    {
        let order = order_of(alloc, draft.alerts.as_slice())?;
        let secondaries = secondaries_of(alloc, draft.alerts.as_slice())?;
        let (line_starts, line_count) = line_starts_of(alloc, draft.alerts.as_slice())?;
        let index = Index::new(alloc, draft.params.as_slice())?;
        let mut draft = draft;
        let slots = place(&mut draft);
        Ok(Book {
            draft,
            order,
            secondaries,
            line_starts,
            line_count,
            slots,
            index,
        })
    }

    /// Each book is sealed. This does nothing, and serves a function that reads no part of the book.
    pub fn sealed(&self)
        ensures { IsSealed self.now }
    {
        let _ = &self.draft;
    }

    /// The systems, in the book's order.
    pub fn systems(&self) -> &[Text]
        ensures value { result.now ≡ self.now.systems.items }
        ensures sealed { IsSealed self.now }
    {
        self.draft.systems.as_slice()
    }

    /// The system pages, in the book's order.
    pub fn pages(&self) -> &[Page]
        ensures value { result.now ≡ self.now.pages.items }
        ensures sealed { IsSealed self.now }
    {
        self.draft.pages.as_slice()
    }

    /// The parameters, in the book's order.
    pub fn params(&self) -> &[Param]
        ensures value { result.now ≡ self.now.params.items }
        ensures sealed { IsSealed self.now }
    {
        self.draft.params.as_slice()
    }

    /// The six conditions that the flight phase goes by.
    pub fn phase_terms(&self) -> &PhaseTerms
        ensures value { result.now ≡ self.now.phase }
        ensures sealed { IsSealed self.now }
    {
        &self.draft.phase
    }

    /// The alerts, in the book's order.
    pub fn alerts(&self) -> &[Alert]
        ensures value { result.now ≡ self.now.alerts.items }
        ensures sealed { IsSealed self.now }
    {
        self.draft.alerts.as_slice()
    }

    /// The memos, in the book's order.
    pub fn memos(&self) -> &[Memo]
        ensures value { result.now ≡ self.now.memos.items }
        ensures sealed { IsSealed self.now }
    {
        self.draft.memos.as_slice()
    }

    /// The places of the alerts in the order in which they are shown: level 3, then 2, then 1, and within a
    /// level as in the book.
    pub fn order(&self) -> &[u32]
        ensures value { result.now ≡ order (the_book self.now) }
        ensures within { All (λ a. a < length self.now.alerts.items) result.now }
        ensures count { length result.now ≡ length self.now.alerts.items }
        ensures sealed { IsSealed self.now }
    {
        self.order.as_slice()
    }

    /// The places of the alerts that an alert explains.
    pub fn secondaries(&self, alert: usize) -> &[u32]
        requires { alert < length self.now.alerts.items }
        ensures value { slice_get (map (λ a. a.secondary) (the_book self.now).alerts) alert
            ≡ Some result.now }
        ensures within { All (λ a. a < length self.now.alerts.items) result.now }
        ensures sealed { IsSealed self.now }
    {
        self.secondaries[alert].as_slice()
    }

    /// The place of an alert's first line in the list of all lines, which follows the book's order of alerts.
    pub fn line_at(&self, alert: usize) -> usize
        requires { alert < length self.now.alerts.items }
        ensures value { result ≡ length (lines_of (take alert (the_book self.now).alerts)) }
        ensures sealed { IsSealed self.now }
    {
        self.line_starts[alert]
    }

    /// How many lines all alerts have together.
    pub fn line_count(&self) -> usize
        ensures value { result ≡ length (lines_of (the_book self.now).alerts) }
        ensures sealed { IsSealed self.now }
    {
        self.line_count
    }

    /// How many slots all conditions have together. A named one has none by itself, but where it is used.
    pub fn slots(&self) -> usize
        ensures value { result ≡ slots_in (terms_of (the_book self.now)) }
        ensures sealed { IsSealed self.now }
    {
        self.slots
    }

    /// The last place of a source that listens to this bus and the label of a word of these bits, of the three places that
    /// each parameter has. Its cost is one look-up.
    #[inline(always)]
    pub fn last_listener(&self, bus: u8, bits: u32) -> Option<u16>
        ensures value { result
            ≡ last_below (listens (the_book self.now).parameters bus (label bits))
            (3 * length (the_book self.now).parameters) }
        ensures sealed { IsSealed self.now }
    {
        self.index.last_listener(bus, bits)
    }

    /// The last place before this one of a source that listens to the same bus and label. Its cost is one look-up.
    #[inline(always)]
    pub fn listener_before(&self, place: usize) -> Option<u16>
        requires { place < 3 * length (the_book self.now).parameters }
        ensures value { (s : Source) → source_at (the_book self.now).parameters place ≡ Some s
            → result ≡ last_below (listens (the_book self.now).parameters s.bus s.label) place }
        ensures sealed { IsSealed self.now }
    {
        self.index.listener_before(place)
    }
}
