// The sink that gathers.
ghost use Rattle.std.specs.Prelude.{◌≡◌, ◌≤◌, ◌+◌, ◌-◌, min, [], ◌++◌, length, take, drop, true, is_ok, IfOk, OnOk, OnErr, ℕ};
ghost use Rattle.ecam_io.specs.Outside.{Rose};
ghost use Rattle.gathering.specs.Handed.{IsHanded};
ghost use Rattle.gathering.specs.Gathers.{Gathers};

use arrayvec::ArrayVec;
use ecam_io::{Failed, Sink};

/// How many bytes are gathered at most.
pub const GATHERED: usize = 65536;

/// A sink that gathers what it is given in 65536 bytes, and hands it on where more doesn't fit behind it, and where it
/// is told to. It takes no memory. Where the other sink fails, what that didn't take stays gathered.
#[derive(Drop)]
pub struct Gathering<'a, O> {
    /// What is gathered.
    pub bytes: ArrayVec<u8, GATHERED>,
    /// Where it goes.
    pub out: &'a mut O,
}

// Drops the first bytes.
fn drop_front(bytes: &mut ArrayVec<u8, GATHERED>, count: usize)
    requires { count ≤ length bytes.old.items }
    ensures { bytes.new.items ≡ drop count bytes.old.items }
{
    bytes.drain(..count);
}

// Appends bytes for which there is room.
fn append(bytes: &mut ArrayVec<u8, GATHERED>, more: &[u8])
    requires { length bytes.old.items + length more.now ≤ GATHERED }
    ensures { bytes.new.items ≡ bytes.old.items ++ more.now }
{
    let _ = bytes.try_extend_from_slice(more);
}

impl<'a, O: Sink> Gathering<'a, O> {
    /// Nothing is gathered yet.
    pub fn new(out: &'a mut O) -> Gathering<'a, O>
        ensures same_sink { result.out.ghost_name ≡ out.entry.ghost_name }
        ensures sink { result.out.now ≡ out.old }
        ensures empty { result.bytes.items ≡ [] }
    {
        Gathering {
            bytes: ArrayVec::new(),
            out,
        }
    }

    /// Hands on all that is gathered.
    pub fn hand_over(&mut self) -> Result<(), Failed>
        ensures same_sink { self.new.out.ghost_name ≡ self.old.out.ghost_name }
        ensures handed { IsHanded O.agrees self.old.out.now self.new.out.now
            self.old.bytes.items self.new.bytes.items }
        ensures empty { OnOk result (self.new.bytes.items ≡ []) }
        ensures nothing { self.old.bytes.items ≡ [] → is_ok result ≡ true }
        ensures faults { O.faults self.old.out.now ≤ O.faults self.new.out.now }
        ensures quiet { OnOk result (O.faults self.new.out.now ≡ O.faults self.old.out.now) }
        ensures cause { OnErr result
            (Rose (O.faults self.old.out.now) (O.faults self.new.out.now)) }
    {
        while !self.bytes.is_empty() {
            let count = self.out.write(self.bytes.as_slice())?;
            drop_front(&mut self.bytes, count);
        }
        Ok(())
    }

    // Hands on all that is gathered where so many bytes don't fit behind it.
    fn make_room(&mut self, count: usize) -> Result<(), Failed>
        ensures same_sink { self.new.out.ghost_name ≡ self.old.out.ghost_name }
        ensures handed { IsHanded O.agrees self.old.out.now self.new.out.now
            self.old.bytes.items self.new.bytes.items }
        ensures room { OnOk result (min count GATHERED ≤ GATHERED - length self.new.bytes.items) }
        ensures faults { O.faults self.old.out.now ≤ O.faults self.new.out.now }
        ensures quiet { OnOk result (O.faults self.new.out.now ≡ O.faults self.old.out.now) }
        ensures cause { OnErr result
            (Rose (O.faults self.old.out.now) (O.faults self.new.out.now)) }
    {
        if count > GATHERED - self.bytes.len() {
            self.hand_over()?;
        }
        Ok(())
    }
}

impl<O: Sink> Sink for Gathering<'_, O> {
    ghost agrees = { λ g. Gathers O.agrees g.out.ghost_name g.out.now g.bytes.items };

    ghost faults = { λ g. O.faults g.out.now };

    fn write(&mut self, bytes: &[u8]) -> Result<usize, Failed> {
        self.make_room(bytes.len())?;
        let count = bytes.len().min(GATHERED);
        append(&mut self.bytes, &bytes[..count]);
        Ok(count)
    }
}
