// Which sources listen to a bus and a label.
ghost use Rattle.std.specs.Prelude.{◌≡◌, ◌*◌, ◌+◌, ◌<◌, ◌≤◌, ◌%◌, map, length, vec_len, slice_index_or, slice_set, None, Some, IfOk, All, MatchOption, ⊤};
ghost use Rattle.ecam_spec.specs.declared.limits.TheConstants.{PARAMETERS};
ghost use Rattle.ecam_spec.specs.KeepsLimits.{IsSoundParameter};
ghost use Rattle.book_model.specs.View.{parameter_of};
ghost use Rattle.book_model.specs.Listening.{key_of, turned};

use crate::draft::{Param, WordSource};
use crate::sources::source_at;
use std::alloc::{AllocError, Global};
use std::boxed::BoxedSlice;

/// How many keys there are: 256 labels on each of 16 buses.
const KEYS: usize = 4096;

/// The places of the sources that listen to each bus and label, as chains: from the last of them down to the
/// first.
#[derive(Drop)]
pub struct Index {
    // By 256 times the bus and the first eight bits of a word, which tell its label: the last place.
    last: BoxedSlice<Option<u16>>,
    // By place: the place before it in its chain.
    before: BoxedSlice<Option<u16>>,
}

impl Index {
    ghost use Rattle.book_model.specs.Listening.{IsIndex};

    /// The index of a book's parameters. An error is want of memory.
    pub fn new(alloc: Global, params: &[Param]) -> Result<Index, AllocError>
        requires few { length params.now ≤ PARAMETERS }
        requires sound { All IsSoundParameter (map parameter_of params.now) }
        ensures { IfOk result (IsIndex (map parameter_of params.now)) }
    {
        let mut last = Vec::new(alloc);
        last.resize(KEYS, None)?;
        let mut before = Vec::new(alloc);
        for place in 0..3 * params.len() {
            let earlier = enter(&mut last, source_at(params, place), place as u16);
            before.push(earlier)?;
        }
        Ok(Index {
            last: last.into_boxed_slice(),
            before: before.into_boxed_slice(),
        })
    }

    /// The last place of a source that listens to this bus and the label of a word of these bits, by the bits as they
    /// stand, so that the label needn't be turned round.
    #[inline(always)]
    pub fn last_listener(&self, bus: u8, bits: u32) -> Option<u16>
        ensures { result
            ≡ slice_index_or self.now.last.items.items (key_of bus (bits % 256)) None }
    {
        let key = 256 * usize::from(bus) + (bits % 256) as usize;
        if key < self.last.len() {
            self.last[key]
        } else {
            None
        }
    }

    /// The place before this one of a source that listens to the same bus and label.
    #[inline(always)]
    pub fn listener_before(&self, place: usize) -> Option<u16>
        requires { place < length self.now.before.items.items }
        ensures { result ≡ slice_index_or self.now.before.items.items place None }
    {
        self.before[place]
    }
}

// Puts a place in front of the chain of its source, and answers what was in front.
fn enter(last: &mut Vec<Option<u16>>, source: Option<WordSource>, place: u16) -> Option<u16>
    requires { MatchOption source ⊤ (λ s. key_of s.bus (turned s.label) < vec_len last.old) }
    ensures result { MatchOption source (result ≡ None)
        (λ s. result ≡ slice_index_or last.old.items (key_of s.bus (turned s.label)) None) }
    ensures last { MatchOption source (last.new.items ≡ last.old.items)
        (λ s. last.new.items
        ≡ slice_set last.old.items (key_of s.bus (turned s.label)) (Some place)) }
{
    let source = source?;
    let key = 256 * usize::from(source.bus) + usize::from(source.label.reverse_bits());
    let front = last[key];
    last[key] = Some(place);
    front
}
