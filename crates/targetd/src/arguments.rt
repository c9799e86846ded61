//! The words of the command line.

ghost use Rattle.std.specs.Prelude.{◌≡◌, ◌≢◌, IfErr};

use std::env::{self, FillError};
use std::io::ErrorKind;
use std::rt::Env;
use target_serving::Fault;

/// The environment, with the words of the command line counted from the first after the program's name. The name
/// itself need not be UTF-8.
struct WithoutName<'a, E>(&'a E);

impl<E> Drop for WithoutName<'_, E> {
    fn drop(self) {
        let WithoutName(_) = self;
    }
}

impl<E: Env> Env for WithoutName<'_, E> {
    fn arg(&self, i: usize, buf: &mut [u8]) -> Result<usize, FillError> {
        self.0.arg(i.saturating_add(1), buf)
    }

    fn var(&self, name: &str, buf: &mut [u8]) -> Result<usize, FillError> {
        self.0.var(name, buf)
    }

    fn var_at(&self, i: usize, buf: &mut [u8]) -> Result<usize, FillError> {
        self.0.var_at(i, buf)
    }
}

/// Returns the words after the program's name. A word that is not UTF-8 is a usage fault.
pub fn arguments(rt: &(impl Env + AllocGlobal)) -> Result<Vec<String>, Fault>
    ensures { IfErr result (λ fault. fault ≢ Fault.OutOfMemory → fault ≡ Fault.Usage) }
{
    match env::args(&(WithoutName(rt), rt.alloc())) {
        Ok(words) => Ok(words.collect(rt.alloc())?),
        Err(error) if error.kind() == ErrorKind::OutOfMemory => Err(Fault::OutOfMemory),
        Err(_) => Err(Fault::Usage),
    }
}
