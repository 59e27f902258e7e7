ghost use Rattle.std.specs.Prelude.{◌≡◌};
ghost use Rattle.xt_io.specs.Host.{fresh_stream};

use crate::failed::Failed;
use crate::sink::Sink;
use crate::stream::Stream;
use std::io::{Stderr, Stdout};
use std::marker::Model;

/// A sink over a stream. Each piece is handed on at once; it is a fault of the stream to take nothing. What was
/// written is what the stream holds, where that is known of its kind.
#[derive(Drop)]
pub struct HostStream<W: Stream> {
    stream: W,
    faults: u64,
}

/// Standard output.
pub type HostOut = HostStream<Stdout>;

/// Standard error.
pub type HostErr = HostStream<Stderr>;

impl<W: Stream> Model for HostStream<W> {
    ghost use Rattle.xt_io.specs.Host.{StreamState, known_bytes};

    ghost Value = { StreamState W };

    ghost view = { λ s. record {
      stream = s.stream;
      written = known_bytes W.known (W.contents s.stream);
      faults = s.faults;
    } };
}

impl<W: Stream> HostStream<W> {
    /// A sink over this stream, with no faults yet.
    pub fn new(stream: W) -> HostStream<W>
        ensures { result ≡ fresh_stream W.known W.contents stream }
    {
        HostStream { stream, faults: 0 }
    }

    /// The stream, with what was written.
    pub fn into_stream(self) -> W
        ensures { result ≡ self.stream }
    {
        self.stream
    }
}

impl<W: Stream> Sink for HostStream<W> {
    ghost use Rattle.std.specs.Prelude.{◌≡◌, ◌<◌, ◌≤◌, length, take, IfOk, OnOk, OnErr};
    ghost use Rattle.xt_io.specs.Outside.{Rose, appended};
    ghost use Rattle.xt_io.specs.Memory.{one_more};

    ghost written = { λ s. s.written };

    ghost faults = { λ s. s.faults };

    fn write(&mut self, piece: &[u8]) -> Result<usize, Failed>
        requires { 0 < length piece.now }
        ensures counts { self.old.faults ≤ self.new.faults }
        ensures count { IfOk result (λ n. (0 < n) × (n ≤ length piece.now)) }
        ensures ok { IfOk result (λ n. self.new.written ≡ appended self.old.written (take n piece.now)) }
        ensures err { OnErr result (self.new.written ≡ self.old.written) }
        ensures kept { OnOk result (self.new.faults ≡ self.old.faults) }
        ensures failed { OnErr result (Rose self.old.faults self.new.faults) }
        ensures raised { OnErr result (self.new.faults ≡ one_more self.old.faults) }
        ensures cause { OnErr result (W.fails self.old.stream) }
    {
        let answer = self.stream.write_some(piece);
        if answer.is_err() {
            self.faults = self.faults.saturating_add(1);
        }
        answer
    }
}
