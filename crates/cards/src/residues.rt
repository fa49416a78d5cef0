//! Raw minus finished, grey by grey.

ghost use Rattle.std.specs.Prelude.{◌≡◌, ◌+◌, ◌≤◌, length};
ghost use Rattle.calls.specs.Residue.{difference, differences};

/// Writes the differences of the greys from the start of memory and from a later place on.
pub(crate) fn subtract(memory: &[u8], from: usize, reliefs: &mut [i16])
    requires { from + length reliefs.old ≤ length memory.now }
    ensures { reliefs.new ≡ differences memory.now from (length reliefs.old) }
{
    // By the index: a proof knows nothing of what is written through a `zip` of `iter_mut`.
    for (i, relief) in reliefs.iter_mut().enumerate() {
        *relief = difference(memory[i], memory[from + i]);
    }
}

/// A raw grey minus a finished one.
fn difference(raw: u8, finished: u8) -> i16
    ensures { result ≡ difference raw finished }
{
    i16::from(raw) - i16::from(finished)
}
