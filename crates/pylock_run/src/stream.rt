//! Where the program's bytes come from and where they go.
//!
//! A source exposes to contracts the bytes that are to come, a sink those that it took; each may
//! expose none. Both expose how often they failed, a count that stops at its last value.
ghost use Rattle.std.specs.Prelude.{◌≡◌, ◌<◌, ◌≤◌, length, IfOk, OnErr, OnOk};
ghost use Rattle.std.specs.Io.KnownBytes.{Appends, ReadConsumes, WriteAppends};
ghost use Rattle.pylock_run.specs.Stream.{SourceValue, SinkValue, TakesPrefix, one_more};

pub mod memory;
pub mod output;
pub mod terminal;
pub mod whole;
pub mod wrapper;

/// A read or a write that failed. What failed is not told.
#[derive(Clone, Copy, Debug, PartialEq, Eq)]
pub struct IoFault;

/// Bytes to read.
pub trait Source {
    ghost value: { Self → SourceValue };

    /// Moves a prefix of what is to come to the beginning of `buf`, and answers its length;
    /// none only at the end, or where `buf` is empty. Past those the contents of `buf` are open.
    /// A call that fails moves none.
    fn read(&mut self, buf: &mut [u8]) -> Result<usize, IoFault>
        ensures bound { IfOk result (λ n. n ≤ length buf.new) }
        ensures given { ReadConsumes (value self.old).rest (value self.new).rest result buf.new }
        ensures counted { OnOk result ((value self.new).failures ≡ (value self.old).failures) }
        ensures failed { OnErr result
            ((value self.new).failures ≡ one_more (value self.old).failures) };
}

/// Where bytes are written.
pub trait Sink {
    ghost value: { Self → SinkValue };

    /// Takes a prefix of `piece`, and answers its length. To take none of a piece that has
    /// some counts as a failure, as an `Err` does. A call that fails takes none.
    fn write(&mut self, piece: &[u8]) -> Result<usize, IoFault>
        ensures bound { IfOk result (λ n. n ≤ length piece.now) }
        ensures taken { WriteAppends (value self.old).held (value self.new).held result piece.now }
        ensures counted { IfOk result (λ n. (n ≡ 0 → length piece.now ≡ 0)
            → (value self.new).failures ≡ (value self.old).failures) }
        ensures stuck { IfOk result (λ n. n ≡ 0 → 0 < length piece.now
            → (value self.new).failures ≡ one_more (value self.old).failures) }
        ensures failed { OnErr result
            ((value self.new).failures ≡ one_more (value self.old).failures) };
}

/// Writes all of `text`. A sink that fails, or takes none of what is left, ends the loop, and then
/// it has taken a prefix of `text`.
pub fn write_all<W: Sink>(writer: &mut W, text: &[u8]) -> Result<(), IoFault>
    ensures ok { OnOk result
        (Appends (W.value writer.old).held (W.value writer.new).held text.now) }
    ensures counted { OnOk result
        ((W.value writer.new).failures ≡ (W.value writer.old).failures) }
    ensures err { OnErr result (TakesPrefix (W.value writer.old) (W.value writer.new) text.now) }
    ensures failed { OnErr result
        ((W.value writer.new).failures ≡ one_more (W.value writer.old).failures) }
{
    let mut done = 0;
    while done < text.len() {
        let taken = writer.write(&text[done..])?;
        if taken == 0 {
            return Err(IoFault);
        }
        done += taken;
    }
    Ok(())
}
