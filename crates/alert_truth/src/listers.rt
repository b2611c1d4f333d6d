// Which alerts list an alert as secondary.
ghost use Rattle.std.specs.Prelude.{◌≡◌, ℕ, ◌<◌, ◌==◌, Bool, length, get_or, All, IfOk, OnOk, Option, None, Some, if◌then◌else◌};
ghost use Rattle.std.specs.List.{list_any};
ghost use Rattle.ecam_spec.specs.Book as plain;
ghost use Rattle.book_model.specs.Sealed.{the_book};
ghost use Rattle.alert_truth.specs.Listed.{ListersFit, AreLinked, first_lister, primary_of};

use book_model::Book;
use std::alloc::{AllocError, Global};

/// Per alert of a book the alerts that list it as secondary, in the book's order. Memory is taken in `new` alone: a few bytes
/// an alert, and for each secondary of it.
#[derive(Drop)]
pub struct Listers {
    // Per alert where the first of them is linked: the number of the link and one, or 0 where there is none.
    heads: Vec<usize>,
    links: Vec<Link>,
}

// An alert that lists another, and where the next one is linked, which was linked before.
#[derive(Clone, Copy, Drop)]
struct Link {
    lister: u32,
    rest: usize,
}

impl Listers {
    /// Links the alerts of a book, the last one first. An error is want of memory. Its cost is a few writes for each
    /// secondary.
    pub fn new(alloc: Global, book: &Book) -> Result<Listers, AllocError>
        ensures { IfOk result (ListersFit (the_book book.now)) }
    {
        let alerts = book.alerts().len();
        let mut listers = Listers {
            heads: vec![in alloc; 0usize; alerts]?,
            links: Vec::new(alloc),
        };
        let mut alert = alerts;
        while alert > 0 {
            alert -= 1;
            listers.add(book.secondaries(alert), alert as u32)?;
        }
        Ok(listers)
    }

    // Puts an alert in front of those that list its secondaries.
    fn add(&mut self, secondaries: &[u32], alert: u32) -> Result<(), AllocError>
        requires linked { AreLinked (length self.old.heads.items) self.old }
        requires places { All (λ s. s < length self.old.heads.items) secondaries.now }
        requires alert { alert < length self.old.heads.items }
        ensures places { OnOk result (length self.new.heads.items ≡ length self.old.heads.items) }
        ensures linked { OnOk result (AreLinked (length self.old.heads.items) self.new) }
        ensures adds { OnOk result ((test : ℕ → Bool) (a : ℕ) → a < length self.old.heads.items
            → first_lister test self.new a
            ≡ (if list_any (λ s. s == a) secondaries.now
            then (if test alert then Some alert else first_lister test self.old a)
            else first_lister test self.old a)) }
    {
        for secondary in secondaries {
            let place = *secondary as usize;
            let rest = self.heads[place];
            self.links.push(Link {
                lister: alert,
                rest,
            })?;
            self.heads[place] = self.links.len();
        }
        Ok(())
    }

    /// The first active alert, in the book's order, that lists an active alert as secondary, where these are active. Its cost
    /// is a look at each up to it.
    pub fn primary(&self, active: &[bool], alert: usize) -> Option<u32>
        requires { (b : plain.Book) × ListersFit b self.now × (length active.now ≡ length b.alerts)
            × (alert < length b.alerts) }
        ensures { (b : plain.Book) → ListersFit b self.now → alert < length b.alerts
            → result ≡ primary_of b active.now alert }
    {
        if !active[alert] {
            return None;
        }
        let mut place = self.heads[alert];
        while place > 0 {
            let link = self.links[place - 1];
            if active[link.lister as usize] {
                return Some(link.lister);
            }
            place = link.rest;
        }
        None
    }
}
