//! What every tone kind gives. The meaning is one record, and every call reads a field of it.
ghost use Rattle.std.specs.Prelude.{◌≡◌, neg_ℤ};
ghost use Rattle.tones.specs.Kind.{Kind, Laws};

/// A kind of tones.
pub trait Tone: Copy {
    /// A tone as it lies in memory: its parts, without limits.
    type Row: Copy;

    ghost kind: { Kind Self Self.Row };

    /// How many tones there are.
    fn count() -> u32
        ensures { result ≡ kind.count };

    /// The largest amount that lowers or raises.
    fn span() -> u32
        ensures { result ≡ kind.span };

    /// The code of this tone.
    fn code(self) -> u32
        ensures { result ≡ kind.code self };

    /// The tone of a code; the top tone for a code of `count()` or more.
    fn of_code(code: u32) -> Self
        ensures { result ≡ kind.tone code };

    /// This tone lowered by an amount; the same tone for an amount outside the span.
    fn lowered(self, amount: i32) -> Self
        ensures { result ≡ kind.lowered self amount };

    /// This tone raised by an amount: lowered by minus the amount.
    fn raised(self, amount: i32) -> Self
        ensures { result ≡ kind.lowered self (neg_ℤ amount) }
    {
        amount.checked_neg().map_or(self, |down| self.lowered(down))
    }

    /// This tone as it lies in memory.
    fn row(self) -> Self::Row
        ensures { result ≡ kind.row self };

    /// The tone that a row counts as: the top tone where its parts are outside the limits.
    fn of_row(row: Self::Row) -> Self
        ensures { result ≡ kind.counted row };

    ghost lawful: { Laws kind };
}
