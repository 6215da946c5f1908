//! Packets from lines.

ghost use Rattle.std.specs.Prelude.{◌≡◌, ◌^◌, ◌<◌, ◌≤◌, length, option_map, true, false};
ghost use Rattle.packet_lines.specs.Texts.{packet_in, judged, is_sized};

use hex_digits::bytes_at_once;
use ts_packet::transfer::{FillFault, fill};
use ts_packet::{
    Packet, PacketFault, PacketSource, PausingPackets, PausingSource, ReadFault, Source,
};

/// The digits of one line.
pub(crate) const LINE_DIGITS: usize = 376;

/// A line with its end.
const LINE_SIZE: usize = 377;

/// The end of a line.
pub(crate) const LINE_END: u8 = b'\n';

/// The packet of a line, or why its bytes are none; `None` where it is not 376 digits, with the line's end where anything is behind
/// them.
fn packet_of(line: &[u8]) -> Option<Result<Packet, PacketFault>>
    requires { length line.now ≤ 377 }
    ensures { result ≡ option_map judged (packet_in line.now) }
{
    if !is_sized(line) {
        return None;
    }
    let mut bytes = [0; 188];
    if bytes_at_once(&line[..LINE_DIGITS], &mut bytes) {
        Some(Packet::from_bytes(&bytes))
    } else {
        None
    }
}

/// Whether a line has its size, and its end where it goes on behind the digits.
fn is_sized(line: &[u8]) -> bool
    requires { length line.now ≤ 377 }
    ensures value { result ≡ is_sized line.now }
    ensures long { result ≡ true → 376 ≤ length line.now }
{
    line.len() == LINE_DIGITS || line.len() == LINE_SIZE && line[LINE_DIGITS] == LINE_END
}

/// Reads packets from a text of lines, each the 376 upper case hexadecimal digits of a packet and the line's end, which may be
/// missing at the end of the text. Any other line is answered as `Truncated`: what is left is no whole packet.
#[derive(Drop)]
pub struct LineReader<'a, S: Source> {
    source: &'a mut S,
    given: u64,
    is_broken: bool,
    has_ended: bool,
    ghost ended: { has_ended ≡ true → is_broken ≡ false },
    ghost counted: { given < 2 ^ 64 },
}

impl<'a, S: Source> LineReader<'a, S> {
    ghost use Rattle.std.specs.Prelude.{◌≡◌, false};

    /// A reader of the lines that this device gives.
    pub fn new(source: &'a mut S) -> LineReader<'a, S>
        ensures same { result.source.ghost_name ≡ source.entry.ghost_name }
        ensures source { result.source.now ≡ source.old }
        ensures given { result.given ≡ 0 }
        ensures whole { result.is_broken ≡ false }
        ensures begins { result.has_ended ≡ false }
    {
        LineReader {
            source,
            given: 0,
            is_broken: false,
            has_ended: false,
        }
    }
}

impl<S: Source> PacketSource for LineReader<'_, S> {
    ghost use Rattle.std.specs.Prelude.{◌≡◌};
    ghost use Rattle.ts_packet.specs.Transfers.{FallsShort};
    ghost use Rattle.packet_lines.specs.Texts.{left_in};
    ghost use Rattle.std.proofs.Common.{refl, ◌∙◌};

    ghost left = { λ r. left_in r.has_ended (S.remaining r.source.now) };

    ghost counts = { λ r. S.counts r.source.now };

    ghost given = { λ r. r.given };

    ghost is_broken = { λ r. r.is_broken };

    ghost has_ended = { λ r. r.has_ended };

    ghost leads = { λ r s. s.source.ghost_name ≡ r.source.ghost_name };

    ghost falls_short = { λ r s. FallsShort 377 (S.remaining r.source.now) (S.remaining s.source.now) };

    ghost leads_refl = { λ s. refl };

    ghost leads_trans = { λ s t u h k. k ∙ h };

    fn read_packet(&mut self, packet: &mut Packet) -> Result<bool, ReadFault> {
        if self.is_broken {
            return Err(ReadFault::Failed);
        }
        if self.has_ended {
            return Ok(false);
        }
        self.is_broken = true;
        if self.given == u64::MAX {
            return Err(ReadFault::Turns);
        }
        let mut line = [0; 377];
        match fill(self.source, &mut line) {
            Ok(0) => {
                self.is_broken = false;
                Ok(false)
            }
            Ok(count) => match packet_of(&line[..count]) {
                Some(Ok(found)) => {
                    *packet = found;
                    self.given += 1;
                    self.is_broken = false;
                    self.has_ended = count < LINE_SIZE;
                    Ok(true)
                }
                Some(Err(PacketFault::SyncLost)) => Err(ReadFault::SyncLost),
                Some(Err(PacketFault::BadAdaptation)) => Err(ReadFault::BadAdaptation),
                None => Err(ReadFault::Truncated),
            },
            Err(FillFault::Io) => Err(ReadFault::Io),
            Err(FillFault::Turns) => Err(ReadFault::Turns),
        }
    }
}

impl<S: PausingSource> PausingPackets for LineReader<'_, S> {
    ghost use Rattle.std.specs.Prelude.{not, ◌&&◌};

    ghost next_may_wait = { λ r. not r.has_ended && S.may_wait r.source.now 377 };

    fn next_may_wait(&self) -> bool {
        !self.has_ended && self.source.may_wait(LINE_SIZE)
    }
}
