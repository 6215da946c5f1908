//! A writer that is lent to a run. Whatever the run does with it, it writes through the reference that was lent, so that who lent it knows
//! what stands there when the run has ended.

ghost use Rattle.std.specs.Prelude.{◌≡◌};

use std::io::{self, Write};
use std::marker::{Brand, PhantomData};

/// Names a reference that is lent.
pub trait Place {
    ghost use Rattle.std.specs.Prelude.{ℕ};

    /// The name by which a proof knows the reference.
    ghost name: { ℕ };
}

impl Place for Brand {
    ghost name = { 0 };
}

/// A writer to be lent.
#[derive(Drop)]
pub struct Loan<'a, W> {
    pub at: &'a mut W,
}

/// A writer that is lent: always the reference that `K` names.
#[derive(Drop)]
pub struct Lent<'a, W, K: Place> {
    at: &'a mut W,
    of: PhantomData<K>,
    ghost same: { at.ghost_name ≡ K.name },
}

impl<'a, W, K: Place> Lent<'a, W, K> {
    /// Lends the writer, which is the one that `K` names.
    pub fn new(loan: Loan<'a, W>) -> Lent<'a, W, K>
        requires { loan.at.ghost_name ≡ K.name }
        ensures same { result.at.ghost_name ≡ loan.entry.at.ghost_name }
        ensures value { result.at.now ≡ loan.entry.at.now }
    {
        let Loan { at } = loan;
        Lent {
            at,
            of: PhantomData,
        }
    }

    /// The writer, as the writes left it.
    pub fn into_loan(self) -> Loan<'a, W>
        ensures same { result.at.ghost_name ≡ K.name }
        ensures value { result.at.now ≡ self.entry.at.now }
    {
        let Lent { at, of: _ } = self;
        Loan { at }
    }
}

impl<W: Write, K: Place> Write for Lent<'_, W, K> {
    ghost contents = { λ l. W.contents l.at.now };

    fn write(&mut self, buf: &[u8]) -> io::Result<usize> {
        self.at.write(buf)
    }

    fn write_all(&mut self, buf: &[u8]) -> io::Result<()> {
        self.at.write_all(buf)
    }

    fn flush(&mut self) -> io::Result<()> {
        self.at.flush()
    }
}
